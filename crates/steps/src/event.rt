/// What a machine meets, one at a time.
#[derive(Clone, Copy, Debug, PartialEq, Eq)]
pub enum Event {
    /// The hart takes one interrupt, or does one instruction, or takes one trap.
    Step,
    /// The timer ticks.
    Tick,
    /// A byte comes on the console's line.
    Byte(u8),
}

/// What comes out of a machine at an event.
#[derive(Clone, Copy, Debug, PartialEq, Eq)]
pub struct Out {
    /// The byte that is sent, if one is.
    pub byte: Option<u8>,
}
