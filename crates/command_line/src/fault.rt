ghost use Rattle.std.specs.Prelude.{◌≡◌};
ghost use Rattle.command_line.specs.declared.fault.PlanFault.TheVariants.{Memory};

use std::alloc::AllocError;

/// Why a command line gives no plan.
#[derive(Debug, Drop)]
pub enum PlanFault {
    /// It asks for help: the text to show.
    Help(String),
    /// It is no command of the program: the text to show.
    Refused(String),
    /// No memory to read it.
    Memory,
}

impl From<AllocError> for PlanFault {
    ghost from_gives = { λ _ fault. fault ≡ Memory };

    fn from(_error: AllocError) -> PlanFault {
        PlanFault::Memory
    }
}
