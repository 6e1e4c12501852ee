/// Why a machine could not be made, or a run not begun.
#[derive(Clone, Copy, Debug, PartialEq, Eq)]
pub enum MachineFault {
    /// No memory for the machine.
    M2,
    /// No memory for the bytes that a run may send.
    M5,
}
