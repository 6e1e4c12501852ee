/// How a machine stands after a run.
#[derive(Clone, Copy, Debug, PartialEq, Eq)]
pub enum End {
    /// It is not halted.
    Running,
    /// It was halted with this number.
    Halted(u64),
}
