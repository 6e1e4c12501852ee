//! What a watch sees of a machine.

ghost use Rattle.std.specs.Prelude.{◌≡◌, is_some};
ghost use Rattle.steps.specs.State.{State};
ghost use Rattle.steps.specs.Applying.{IsPlanned};
ghost use Rattle.steps.specs.Step.{step_fetched};

use cap_bounds::CapRep;
use hart::Planned;
use machine::Machine;

/// A machine that may be looked at. (A method of a trait can't take a machine over any form of capabilities: so watches are generic over
/// the machine.)
pub trait Seen {
    /// A step that was planned.
    type Plan;

    // The state that it is in.
    ghost state: { Self → State };

    // The plan is that of the next step of a state.
    ghost is_plan: { Self.Plan → State → Type 0 };

    /// Whether it is halted.
    fn is_halted(&self) -> bool
        ensures { result ≡ is_some (state self.now).devices.halted };
}

impl<C: CapRep> Seen for Machine<C> {
    type Plan = Planned<C>;

    ghost state = { λ m. m };

    ghost is_plan = { λ planned s. IsPlanned C.value planned.effect s × (planned.fetched ≡ step_fetched s) };

    fn is_halted(&self) -> bool {
        self.halted().is_some()
    }
}
