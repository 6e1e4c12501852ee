//! Steps that are plain.
ghost use Rattle.std.specs.Prelude.{◌≡◌, IsTrue};
ghost use Rattle.steps.specs.Applying.{meant, IsPlanned};
ghost use Rattle.steps.specs.Outcome.{Plain, outcome_of, step_outcome};

use cap_bounds::CapRep;
use machine::{Machine, Planned};
use steps::Effect;

/// Whether an effect neither traps nor unseals nor jumps through a seal.
#[tactic(auto, unfolding(steps::specs::Outcome::outcome_of))]
fn is_plain<C: CapRep>(effect: &Effect<C>) -> bool
    ensures { IsTrue result → outcome_of (meant C.value effect.now) ≡ Plain }
{
    match effect {
        Effect::Trap(_) => false,
        Effect::Unseal(write) => !write.value.tag(),
        Effect::Enter(enter) => !enter.sealed,
        Effect::Return { sealed } => !*sealed,
        _ => true,
    }
}

/// The same of a step that was planned. A machine that is halted ignores it.
#[tactic(auto, unfolding(steps::specs::Outcome::step_outcome))]
pub(crate) fn is_plain_step<C: CapRep>(machine: &Machine<C>, planned: &Planned<C>) -> bool
    requires { IsPlanned C.value planned.now.effect machine.now }
    ensures { IsTrue result → step_outcome machine.now ≡ Plain }
{
    machine.halted().is_some() || is_plain(&planned.effect)
}
