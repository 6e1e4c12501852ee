//! A compartment that counts.
ghost use Rattle.std.specs.Prelude.{◌≡◌, ◌⊎◌, ℕ, ◌<◌, [], ◌∷◌, None};
ghost use Rattle.base.specs.Ram.{ram_base};
ghost use Rattle.cap_bounds.specs.CapValue.{CapValue};
ghost use Rattle.cap_rights.specs.Rights.{OpensStore, OpensSystem, OpensType};
ghost use Rattle.tagged_memory.specs.Memory.{number_at};
ghost use Rattle.steps.specs.State.{pc_of};
ghost use Rattle.authority.specs.Reachable.{IsReachable};
ghost use Rattle.authority.specs.Confined.{IsConfined, IsOfTheTwo, LooksTheSame, StaysOutside};
ghost use Rattle.authority.specs.Worlds.{Agree};
ghost use Rattle.machine.specs.Run.{run_after, run_sent};
ghost use Rattle.machine.specs.Stretch.{ArePlain, IsPlainRun, IsStretch, IsTwin};
ghost use Rattle.reach.specs.declared.right.Right.TheVariants.{Execute, Load, Store};
ghost use Rattle.reach.specs.Differs.{DiffersWithin, KeepsBytes};
ghost use Rattle.reach.specs.First.{HoldsOfNone};
ghost use Rattle.reach.specs.Opens.{IsSealedAs, OpensSome, OpensUnsealing};
ghost use Rattle.reach.specs.Reach.{AreReachable};
ghost use Rattle.policy.specs.Run.{AppliesToEach, KeepToEach, NoneTraps};
ghost use Rattle.policy.specs.Watch.{DiffersOutside};
ghost use Rattle.worked.specs.Counter.{code_capability, counter, counter_rule, data_capability, round, two_capabilities};

use authority::laws::confined_code_reaches_its_two_capabilities;
use machine::laws::confined_runs_stay_confined;
use policy::laws::runs_keep_to_a_rule;
use reach::laws::{what_no_member_opens_stays, what_no_member_reads_is_not_learned};

/// The counter's round is a plain run from a confined state: it counts, and ends where it began.
pub fn the_counter_is_confined()
    ensures confined { (secret : ℕ) → IsConfined (counter secret) }
    ensures plain { (secret : ℕ) → secret < 256 → IsPlainRun round (counter secret) }
    ensures stretch { (secret : ℕ) → IsStretch round 4 None (counter secret) }
    ensures counts { (secret : ℕ) → number_at (run_after round (counter secret)).memory 0x8000_0100 4 ≡ 1 }
    ensures goes_round { (secret : ℕ) → pc_of (run_after round (counter secret)) ≡ 0x8000_0000 }
{}

/// Its two capabilities are its reach; counters with other secrets look the same to it and agree, and differ outside its rule's ranges
/// alone; and over its round the rule applies and is kept.
pub fn the_counter_keeps_its_rule()
    ensures reach { (secret : ℕ) → AreReachable (counter secret) two_capabilities }
    ensures looks { (secret other : ℕ) → LooksTheSame (counter secret) (counter other) }
    ensures agree { (secret other : ℕ) → Agree (counter secret) (counter other) }
    ensures differs { (secret other : ℕ) → DiffersOutside counter_rule (counter secret) (counter other) }
    ensures applies { (secret : ℕ) → AppliesToEach counter_rule round 4 (counter secret) }
    ensures keeps { (secret : ℕ) → secret < 256 → KeepToEach (counter_rule ∷ []) round 4 (counter secret) }
    ensures no_trap { (secret : ℕ) → secret < 256 → NoneTraps round 4 (counter secret) }
{
    confined_code_reaches_its_two_capabilities();
}

/// Neither of the two opens the secret, a device or the system registers, or seals or unseals, and neither is sealed; and counters differ
/// in the secret alone.
pub fn neither_opens_the_secret()
    ensures store { HoldsOfNone (λ v. OpensSome Store v 0x8000_0400 1) two_capabilities }
    ensures load { HoldsOfNone (λ v. OpensSome Load v 0x8000_0400 1) two_capabilities }
    ensures execute { HoldsOfNone (λ v. OpensSome Execute v 0x8000_0400 1) two_capabilities }
    ensures devices { (address : ℕ) → address < ram_base → HoldsOfNone (λ v. OpensStore v address) two_capabilities }
    ensures system { HoldsOfNone OpensSystem two_capabilities }
    ensures seals { (otype : ℕ) → HoldsOfNone (λ v. OpensType v otype) two_capabilities }
    ensures unseals { (otype : ℕ) → HoldsOfNone (λ v. OpensUnsealing v otype) two_capabilities }
    ensures sealed { (otype : ℕ) → HoldsOfNone (λ v. IsSealedAs v otype) two_capabilities }
    ensures differs { (secret other : ℕ) → DiffersWithin (counter secret) (counter other) 0x8000_0400 1 }
{}

/// What the laws on its reach say of it: over its round the secret is kept, and not learned.
pub fn the_secret_is_kept()
    ensures kept { (secret : ℕ) → secret < 256
        → KeepsBytes (counter secret).memory (run_after round (counter secret)).memory 0x8000_0400 1 }
    ensures hidden { (secret other : ℕ) → secret < 256 → ArePlain round (counter other) × IsTwin round (counter secret) (counter other) }
{
    the_counter_is_confined();
    the_counter_keeps_its_rule();
    neither_opens_the_secret();
    what_no_member_opens_stays();
    what_no_member_reads_is_not_learned();
}

/// What the laws say of it: it reaches two capabilities, and after its round nothing beyond their rights, all outside its data is as it
/// was, nothing was sent, and the secret made no difference, nor is it lost.
pub fn a_round_stays_in_the_compartment()
    ensures reaches { (secret : ℕ) (v : CapValue) → IsReachable (counter secret) v → (v ≡ code_capability) ⊎ (v ≡ data_capability) }
    ensures rights { (secret : ℕ) (v : CapValue) → secret < 256 → IsReachable (run_after round (counter secret)) v
        → IsOfTheTwo (counter secret) v }
    ensures stays { (secret : ℕ) → secret < 256 → StaysOutside (counter secret) (run_after round (counter secret)) }
    ensures silent { (secret : ℕ) → secret < 256 → run_sent round (counter secret) ≡ [] }
    ensures two_worlds { (secret other : ℕ) → secret < 256 → IsTwin round (counter secret) (counter other) }
    ensures secrets { (secret other : ℕ) → secret < 256
        → DiffersOutside counter_rule (run_after round (counter secret)) (run_after round (counter other)) }
{
    the_counter_is_confined();
    the_counter_keeps_its_rule();
    confined_code_reaches_its_two_capabilities();
    confined_runs_stay_confined();
    runs_keep_to_a_rule();
}
