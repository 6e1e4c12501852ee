/// Where a walk over a schedule stands.
#[derive(Clone, Copy, Debug, PartialEq, Eq)]
pub struct Position {
    /// How many steps were done.
    pub done: u64,
    /// Whether the byte before the next step came.
    pub brought: bool,
    /// Whether the tick after the last step is still to come.
    pub owed: bool,
}
