//! What holds of plain events, those without a trap, an unsealing or a sealed jump: each function's contract is a law over the
//! definitions alone, and its body is empty.

ghost use Rattle.std.specs.Prelude.{◌≡◌, ℕ, None, ◌⊎◌};
ghost use Rattle.cap_bounds.specs.CapValue.{CapValue};
ghost use Rattle.devices.specs.Devices.{transmit, halt, timer_compare, timer, control_register};
ghost use Rattle.steps.specs.declared.event.Event.{Event};
ghost use Rattle.steps.specs.Event.{after, sent, outcome};
ghost use Rattle.steps.specs.IsState.{IsState};
ghost use Rattle.steps.specs.Outcome.{Plain};
ghost use Rattle.steps.specs.State.{State};
ghost use Rattle.authority.specs.Reachable.{IsReachable};
ghost use Rattle.authority.specs.Authority.{Not, NoNewRights, NewSealsAllowed, IsWritable, HasSystem, LeavesAlone};
ghost use Rattle.authority.specs.Lent.{KeepsNothingLentBeyond};
ghost use Rattle.authority.specs.Worlds.{IsReadable};
ghost use Rattle.authority.specs.Confined.{IsConfined, Spans};

/// A plain event gives no rights: what is reachable after it is within the rights of something that was reachable before, and a seal
/// that is new there is a sentry's, or one that a reachable capability may put on.
pub fn plain_events_give_no_rights()
    ensures rights { (s : State) → IsState s → (e : Event) → outcome e s ≡ Plain → NoNewRights s (after e s) }
    ensures seals { (s : State) → IsState s → (e : Event) → outcome e s ≡ Plain → NewSealsAllowed s (after e s) }
{}

/// A plain event leaves alone what no reachable capability opens, and sends a byte only where one opens the transmit register.
pub fn plain_events_leave_the_rest_alone()
    ensures state { (s : State) → IsState s → (e : Event) → outcome e s ≡ Plain → LeavesAlone s (after e s) }
    ensures silent { (s : State) → IsState s → (e : Event) → Not (IsWritable s transmit) → sent e s ≡ None }
{}

/// At no event, whatever it comes to, is anything kept that is lent without Global, but where something reachable may keep it: a trap, an
/// unsealing and a sealed jump keep nothing either.
pub fn events_keep_nothing_lent()
    ensures { (s : State) → IsState s → (e : Event) → KeepsNothingLentBeyond (IsReachable s) s.memory (after e s).memory }
{}

/// Confined code reaches its two capabilities alone: PCC, DDC, and nothing more. It writes in DDC's bounds and reads in PCC's and DDC's;
/// no device register is writable, and the system registers are closed to it.
pub fn confined_code_reaches_its_two_capabilities()
    ensures reachable { (s : State) → IsConfined s → (v : CapValue) → IsReachable s v → (v ≡ s.scrs.pcc) ⊎ (v ≡ s.scrs.ddc) }
    ensures writable { (s : State) → IsConfined s → (a : ℕ) → IsWritable s a → Spans s.scrs.ddc a }
    ensures readable { (s : State) → IsConfined s → (a : ℕ) → IsReadable s a → Spans s.scrs.pcc a ⊎ Spans s.scrs.ddc a }
    ensures transmit { (s : State) → IsConfined s → Not (IsWritable s transmit) }
    ensures halt { (s : State) → IsConfined s → Not (IsWritable s halt) }
    ensures timer_compare { (s : State) → IsConfined s → Not (IsWritable s timer_compare) }
    ensures timer { (s : State) → IsConfined s → Not (IsWritable s timer) }
    ensures control { (s : State) → IsConfined s → Not (IsWritable s control_register) }
    ensures system { (s : State) → IsConfined s → Not (HasSystem s) }
{}
