//! What holds of two worlds, states that agree in all that reachable capabilities open: each function's contract is a law over the
//! definitions alone, and its body is empty.

ghost use Rattle.std.specs.Prelude.{◌≡◌, ℕ, ◌+◌, ◌%◌, true, false, length, slice_set};
ghost use Rattle.base.specs.Ram.{ram_base};
ghost use Rattle.cap_bounds.specs.CapValue.{CapValue};
ghost use Rattle.tagged_memory.specs.Memory.{Memory, IsMemory, is_in_ram, has_tag};
ghost use Rattle.special_regs.specs.Scrs.{Scrs};
ghost use Rattle.steps.specs.declared.event.Event.{Event};
ghost use Rattle.steps.specs.Event.{after, sent, outcome};
ghost use Rattle.steps.specs.IsState.{IsState};
ghost use Rattle.steps.specs.Outcome.{Plain, is_trap, step_outcome};
ghost use Rattle.steps.specs.State.{State};
ghost use Rattle.steps.specs.Step.{step_effect, stepped, step_sent};
ghost use Rattle.authority.specs.Authority.{Not, HasSystem};
ghost use Rattle.authority.specs.Changes.{ChangesAlike};
ghost use Rattle.authority.specs.Reachable.{IsReachable};
ghost use Rattle.authority.specs.WorldLooks.{SameLooks};
ghost use Rattle.authority.specs.Worlds.{IsReadable, IsTagReadable, Agree};

/// A step is a function of its looks: its effect, the byte that it sends, and, where it isn't a trap, what it changes. Agreeing states
/// have the same looks, so each event has the same outcome and sends the same byte in both; and after a plain event they agree again.
pub fn agreeing_states_step_alike()
    ensures effect { (s t : State) → SameLooks s t → step_effect t ≡ step_effect s }
    ensures sent { (s t : State) → SameLooks s t → step_sent t ≡ step_sent s }
    ensures changes { (s t : State) → IsState s → SameLooks s t → is_trap (step_outcome s) ≡ false
        → ChangesAlike s (stepped s) t (stepped t) }
    ensures looks { (s t : State) → Agree s t → SameLooks s t }
    ensures outcome { (e : Event) (s t : State) → Agree s t → outcome e t ≡ outcome e s }
    ensures byte { (e : Event) (s t : State) → Agree s t → sent e t ≡ sent e s }
    ensures agreement { (e : Event) (s t : State) → IsState s → outcome e s ≡ Plain → Agree s t → Agree (after e s) (after e t) }
{}

/// Agreement goes both ways: the same values are reachable in both states. It holds between a state and itself, and over a third.
pub fn agreement_goes_both_ways()
    ensures there { (s t : State) → IsMemory s.memory → Agree s t → (v : CapValue) → IsReachable s v → IsReachable t v }
    ensures back { (s t : State) → IsMemory s.memory → Agree s t → (v : CapValue) → IsReachable t v → IsReachable s v }
    ensures itself { (s : State) → Agree s s }
    ensures other { (s t : State) → IsMemory s.memory → Agree s t → Agree t s }
    ensures third { (s t u : State) → IsMemory s.memory → Agree s t → Agree t u → Agree s u }
{}

/// Where the readable tags of two memories agree at the granules of RAM, they agree everywhere: agreement, which asks for them wherever a
/// capability opens 16 bytes, asks for no more than that.
pub fn tags_lie_at_granules()
    ensures { (s : State) (m : Memory) → IsMemory s.memory → IsMemory m → length m.bytes ≡ length s.memory.bytes
        → ((g : ℕ) → g % 16 ≡ 0 → is_in_ram s.memory g 16 ≡ true → IsTagReadable s g → has_tag m g ≡ has_tag s.memory g)
        → (g : ℕ) → IsTagReadable s g → has_tag m g ≡ has_tag s.memory g }
{}

/// Agreement says nothing of what is hidden: a byte of RAM that is not readable may be anything in the other state, and so may the four
/// special registers where no reachable capability opens them.
pub fn hidden_parts_may_differ()
    ensures byte { (s : State) (k b : ℕ) → Not (IsReadable s (ram_base + k))
        → Agree s (record s { memory = record s.memory { bytes = slice_set s.memory.bytes k b } }) }
    ensures registers { (s : State) (other : Scrs) → Not (HasSystem s)
        → Agree s (record s { scrs = record other { pcc = s.scrs.pcc; ddc = s.scrs.ddc } }) }
{}
