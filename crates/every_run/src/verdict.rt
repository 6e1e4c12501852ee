//! What a proof of every run comes to.
ghost use Rattle.std.specs.Prelude.{◌≡◌};
ghost use Rattle.every_run.specs.Opens.{holds};

use policy::Ban;
use reached::Place;

/// Whether every run keeps to the rules.
#[derive(Clone, Copy, Debug, PartialEq, Eq)]
pub enum Verdict {
    /// Every run does.
    Holds {
        /// The steps of the image's own code: before any code runs, and in a trap.
        steps: u64,
        /// How many capabilities that code can come to hold, from which it can make others.
        members: usize,
    },
    /// It isn't shown. It may hold all the same.
    Unshown(Unshown),
}

impl Verdict {
    /// Whether every run is shown to keep to the rules.
    pub fn holds(self) -> bool
        ensures { result ≡ holds self }
    {
        match self {
            Verdict::Holds { .. } => true,
            Verdict::Unshown(_) => false,
        }
    }
}

/// Why it isn't shown that every run keeps to the rules.
///
/// A place is where a capability stands when any code begins: among the roots are the 32 registers, PCC, DDC, MTCC, MTDC, MScratchC and
/// MEPCC, and after them what doors lead to.
#[derive(Clone, Copy, Debug, PartialEq, Eq)]
pub enum Unshown {
    /// The rule at a place of the list allows what the caller of its code could reach.
    Lends { rule: usize },
    /// A step would fetch a word some of whose bytes may be any.
    UnknownCode { address: u64 },
    /// A step would load bytes that may be any.
    UnknownData { address: u64 },
    /// A step would load data from outside RAM.
    Device { address: u64 },
    /// A step would use what runs read differently: mip, mcycle or minstret.
    SystemRegister { pc: u64 },
    /// An interrupt could be taken.
    Interrupts { pc: u64 },
    /// The machine is halted before any code runs, or a step would halt it.
    Halted { pc: u64 },
    /// Code runs before any code that a rule is about.
    RuleApplies { rule: usize, pc: u64 },
    /// No code that may be any comes to run in so many steps.
    MoreSteps { most: u64 },
    /// A granule with bytes that may be any is tagged.
    TaggedCode { address: u64 },
    /// More doors lead on than are followed.
    ManyDoors,
    /// A step in a trap isn't followed: it looks at what is unknown, traps, stores into RAM or uses a control and status register.
    Unfollowed { pc: u64 },
    /// The return from a trap would give any code what it doesn't come to hold, or leave MScratchC another.
    Returns { place: Place },
    /// A capability that any code comes to hold opens the system registers.
    OpensSystem { place: Place },
    /// One may seal or unseal values.
    MaySeal { place: Place },
    /// One breaks a part of a rule.
    Breaks { rule: usize, ban: Ban, place: Place },
}
