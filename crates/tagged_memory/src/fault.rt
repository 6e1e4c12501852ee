/// Why memory is not made, or not accessed.
#[derive(Clone, Copy, Debug, PartialEq, Eq, Hash)]
pub enum MemoryFault {
    /// The number of pages is not 1 to 65536.
    M1,
    /// No room is left on the machine that this runs on.
    M2,
    /// Some of the bytes lie outside RAM.
    M3,
    /// The address is no multiple of the size.
    M4,
}
