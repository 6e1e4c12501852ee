//! What holds of every run: each function's contract is a law over the definitions alone, and its body calls the laws that it stands on.

ghost use Rattle.std.specs.Prelude.{◌≡◌, ◌≢◌, ◌↔◌, ◌⊎◌, ℕ, ◌+◌, ◌<◌, ◌≤◌, true, None, List, length};
ghost use Rattle.cap_bounds.specs.CapValue.{CapValue, is_tagged, word_of, IsSound};
ghost use Rattle.isa_rows.specs.declared.kinds.Kind.{Kind};
ghost use Rattle.isa_rows.specs.declared.operands.Insn.{Insn};
ghost use Rattle.tagged_memory.specs.Memory.{Memory, IsMemory, is_in_ram, place_fault, data_written, capability_written};
ghost use Rattle.registers.specs.Registers.{register};
ghost use Rattle.steps.specs.declared.event.Event.{Event};
ghost use Rattle.steps.specs.Event.{after};
ghost use Rattle.steps.specs.IsEvent.{IsEvent};
ghost use Rattle.steps.specs.IsState.{IsState};
ghost use Rattle.steps.specs.State.{State};
ghost use Rattle.steps.specs.Step.{kind_effect};
ghost use Rattle.authority.specs.Reachable.{IsHeldAt};
ghost use Rattle.machine.specs.Run.{run_after};
ghost use Rattle.machine.specs.Stretch.{AreEvents};
ghost use Rattle.doors.specs.Closed.{Bounds, HasDoors};
ghost use Rattle.doors.specs.Sets.{IsWritableBy, LeavesMemoryBeyond};
ghost use Rattle.policy.specs.Terms.{Terms};
ghost use Rattle.policy.specs.Run.{KeepToEach};
ghost use Rattle.always.specs.Enclosed.{NoneUnseals, GoesOn, IsEntered, Encloses, IsEnclosedBy, LeavesPlacesBeyond, KeepsRules};
ghost use Rattle.always.specs.Kept.{StaysIn, HoldIn, LendsNothing};

use crate::set::StateSet;
use doors::CapSet;
use doors::laws::closed_sets_bound_turns;

/// From a state of a set that no event leaves, and in whose states the rules that apply hold, every run keeps to the rules: over any
/// steps, ticks and bytes, to the last. No rule may allow what the caller of its code could reach.
pub fn kept_sets_keep_to_rules<S: StateSet>()
    ensures { (rules : List Terms) (s : State) (events : List Event) → LendsNothing rules → AreEvents events → IsState s → S.has s
        → StaysIn S.has → HoldIn rules S.has → KeepToEach rules events (length events) s }
{}

/// Whatever code runs in a state that a set bounds which has doors and none of whose members unseals: after any event the set bounds the
/// state again, and beyond what its members open all is left alone; or a trap is entered, and nothing else is changed.
pub fn any_code_keeps_to_its_set<S: CapSet>()
    ensures { (o s : State) (e : Event) → HasDoors (S.has o) → NoneUnseals (S.has o) → Bounds (S.has o) s → IsState s → IsEvent e
        → GoesOn (S.has o) s (after e s) ⊎ IsEntered s (after e s) }
{
    closed_sets_bound_turns::<S>();
}

/// Code that a set encloses stays enclosed for ever: over any steps, ticks and bytes, through each trap and jump, the set encloses the
/// state, and no byte, tag or device changes that no member may write. And every run of it keeps to rules that nothing within the set's
/// rights breaks.
pub fn enclosed_code_stays_enclosed<S: CapSet>()
    ensures enclosed { (o s : State) (events : List Event) → Encloses (S.has o) → AreEvents events → IsState s → IsEnclosedBy (S.has o) s
        → IsEnclosedBy (S.has o) (run_after events s) }
    ensures left_alone { (o s : State) (events : List Event) → Encloses (S.has o) → AreEvents events → IsState s
        → IsEnclosedBy (S.has o) s → LeavesPlacesBeyond (S.has o) s (run_after events s) }
    ensures rules { (o s : State) (rules : List Terms) (events : List Event) → Encloses (S.has o) → LendsNothing rules
        → KeepsRules (S.has o) rules → AreEvents events → IsState s → IsEnclosedBy (S.has o) s
        → KeepToEach rules events (length events) s }
{
    any_code_keeps_to_its_set::<S>();
}

/// Of the registers an instruction's effect is a function of two, whatever its kind.
pub fn effects_look_at_two_registers()
    ensures { (k : Kind) (word : ℕ) (insn : Insn) (s : State) (rs : List CapValue)
        → register rs insn.rs1 ≡ register s.registers insn.rs1 → register rs insn.rs2 ≡ register s.registers insn.rs2
        → kind_effect k word insn (record s { registers = rs }) ≡ kind_effect k word insn s }
{}

/// After a store of data a tagged granule holds what it held; after a store of a capability so does each other one, and this one the
/// capability.
pub fn stores_change_what_they_say()
    ensures data { (m : Memory) (address : ℕ) (new : List ℕ) → IsMemory m → is_in_ram m address (length new) ≡ true → (g : ℕ) (v : CapValue)
        → IsHeldAt (data_written m address new) g v → IsHeldAt m g v }
    ensures capability { (m : Memory) (address : ℕ) (v : CapValue) → IsMemory m → place_fault m address 16 ≡ None → IsSound v
        → (g : ℕ) (w : CapValue) → IsHeldAt (capability_written m address (word_of v) (is_tagged v)) g w
        → ((g ≡ address) × (w ≡ v)) ⊎ ((g ≢ address) × IsHeldAt m g w) }
{}

/// A granule without a byte that a member may write holds what it held.
pub fn what_is_left_alone_is_held_still<S: CapSet>()
    ensures { (o : State) (m later : Memory) → IsMemory m → LeavesMemoryBeyond (S.has o) m later → (g : ℕ)
        → ((a : ℕ) → g ≤ a → a < g + 16 → IsWritableBy (S.has o) a → ⊥) → (v : CapValue) → IsHeldAt later g v ↔ IsHeldAt m g v }
{}
