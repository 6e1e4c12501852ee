//! A compartment whose traps lead to its own code.
ghost use Rattle.std.specs.Prelude.{ℕ, ◌<◌, List, [], ◌∷◌, length};
ghost use Rattle.steps.specs.declared.event.Event.{Event};
ghost use Rattle.machine.specs.Run.{run_after};
ghost use Rattle.machine.specs.Stretch.{AreEvents};
ghost use Rattle.reach.specs.Differs.{KeepsBytes};
ghost use Rattle.policy.specs.Run.{KeepToEach};
ghost use Rattle.always.specs.Enclosed.{Encloses, IsEnclosedBy, KeepsRules};
ghost use Rattle.worked.specs.Counter.{counter_rule};
ghost use Rattle.worked.specs.Enclosure.{enclosed_counter, IsOneOfTheTwo};

use always::laws::enclosed_code_stays_enclosed;
use doors::CapSet;

/// The counter's two capabilities.
struct TheTwo;

impl CapSet for TheTwo {
    ghost use Rattle.worked.specs.Enclosure.{IsOneOfTheTwo};

    ghost has = { λ s. IsOneOfTheTwo };
}

/// The counter with its trap entry in its own code is enclosed in its two capabilities. So over every run, of any steps, ticks and bytes
/// and whatever its code is made to be, the secret stays, and the counter's rule is kept at each event.
pub fn the_enclosed_counter_keeps_its_rule_for_ever()
    ensures encloses { Encloses IsOneOfTheTwo }
    ensures enclosed { (secret : ℕ) → IsEnclosedBy IsOneOfTheTwo (enclosed_counter secret) }
    ensures rules { KeepsRules IsOneOfTheTwo (counter_rule ∷ []) }
    ensures secret { (secret : ℕ) (events : List Event) → secret < 256 → AreEvents events
        → KeepsBytes (enclosed_counter secret).memory (run_after events (enclosed_counter secret)).memory 0x8000_0400 1 }
    ensures keeps { (secret : ℕ) (events : List Event) → secret < 256 → AreEvents events
        → KeepToEach (counter_rule ∷ []) events (length events) (enclosed_counter secret) }
{
    enclosed_code_stays_enclosed::<TheTwo>();
}
