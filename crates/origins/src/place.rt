//! Places that hold capabilities.

/// A place that holds a capability or a number.
#[derive(Clone, Copy, Debug)]
pub enum Place {
    /// A general register, by its number: 0 to 31.
    Register(u8),
    /// A special capability register, by its number.
    Special(u8),
    /// A granule of memory, by its address, a multiple of 16. It may lie outside RAM.
    Granule(u64),
}
