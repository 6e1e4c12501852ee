//! What a step finds where PCC points.

ghost use Rattle.std.specs.Prelude.{◌≡◌};
ghost use Rattle.steps.specs.Step.{insn_fetched};

use isa_rows::Insn;

/// What the next step of a machine that isn't halted fetches.
#[derive(Clone, Copy, Debug)]
pub enum Fetched {
    /// Nothing: an interrupt is taken.
    Interrupt,
    /// Nothing: the fetch faults.
    Fault,
    /// A word, and the instruction that it is, if it is one.
    Word(u32, Option<Insn>),
}

impl Fetched {
    /// The instruction that the step does, if it does one.
    #[inline]
    pub fn insn(self) -> Option<Insn>
        ensures { result ≡ insn_fetched self }
    {
        match self {
            Fetched::Word(_, insn) => insn,
            Fetched::Interrupt | Fetched::Fault => None,
        }
    }
}
