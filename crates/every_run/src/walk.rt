//! The steps of the image's own code.
ghost use Rattle.std.specs.Prelude.{OnOk};
ghost use Rattle.policy.specs.Terms.{terms_of};
ghost use Rattle.every_run.specs.Known.{IsOutside};
ghost use Rattle.every_run.specs.Lasting.{AlwaysHoldFrom};

use crate::ranges::holds;
use crate::step::{known_step, pc_of};
use crate::verdict::Unshown;
use cap_bounds::CapRep;
use hart::Hart;
use policy::Rule;
use reach::Range;

/// Does steps up to code in the ranges, and answers how many: at most `most`, each of which is the same whatever isn't known. Where the
/// rules hold for ever from the last state, they do from the first.
pub(crate) fn walk<C: CapRep>(
    hart: &mut Hart<C>,
    any: &[Range],
    rules: &[Rule],
    most: u64,
) -> Result<u64, Unshown>
    ensures { OnOk result (AlwaysHoldFrom (IsOutside any.now) (terms_of rules.now) hart.new
        → AlwaysHoldFrom (IsOutside any.now) (terms_of rules.now) hart.old) }
{
    for steps in 0..most {
        if holds(any, pc_of(hart)) {
            return Ok(steps);
        }
        let planned = known_step(hart, any, rules)?;
        hart.apply(planned);
    }
    if holds(any, pc_of(hart)) {
        return Ok(most);
    }
    Err(Unshown::MoreSteps { most })
}
