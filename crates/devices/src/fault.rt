/// Why a device register may not be loaded or stored.
#[derive(Clone, Copy, Debug, PartialEq, Eq)]
pub enum DeviceFault {
    /// There is no such register.
    V1,
    /// The register does not take this size.
    V2,
}
