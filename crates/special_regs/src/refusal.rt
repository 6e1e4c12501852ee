/// Why a system register may not be used, or a trap not be left.
#[derive(Clone, Copy, Debug, PartialEq, Eq)]
pub enum SpecialFault {
    /// An illegal instruction: there is no such register, or it may not be written.
    S1,
    /// PCC lacks Access_System_Registers.
    S2,
}
