//! What encloses a state keeps rules for ever: the contract is a law over the definitions alone.
ghost use Rattle.std.specs.Prelude.{◌≡◌, Contains, List, None};
ghost use Rattle.cap_bounds.specs.CapValue.{CapValue};
ghost use Rattle.steps.specs.IsState.{IsState};
ghost use Rattle.steps.specs.State.{State};
ghost use Rattle.policy.specs.Terms.{Terms};
ghost use Rattle.reach.specs.declared.range.Range.{Range};
ghost use Rattle.always.specs.Enclosed.{Encloses, IsEnclosedBy, KeepsRules};
ghost use Rattle.every_run.specs.Handled.{BeginsAt, IsAmongCode, IsDirect, IsHandled, IsKept, entry_marks};
ghost use Rattle.every_run.specs.Lasting.{AlwaysHold};

use always::laws::{any_code_keeps_to_its_set, enclosed_code_stays_enclosed};
use doors::CapSet;

/// The values that stand in the registers of the state to which the set belongs.
struct Listed;

impl CapSet for Listed {
    ghost use Rattle.std.specs.Prelude.{Contains};

    ghost has = { λ o. Contains o.registers };
}

/// Where a list of capabilities encloses a state and keeps some rules, the rules that apply hold in each state of each run from there.
pub fn enclosed_states_keep_rules()
    ensures { (vs : List CapValue) (rules : List Terms) (s : State) → Encloses (Contains vs) → KeepsRules (Contains vs) rules → IsState s
        → IsEnclosedBy (Contains vs) s → AlwaysHold rules s }
{
    enclosed_code_stays_enclosed::<Listed>();
}

/// Where a list of capabilities encloses any code and keeps some rules, and the kernel's code, which traps enter again, is handled from its
/// entry to its end, the rules that apply hold in each state of each run: from each state in which any code of the list runs, where what
/// it can't change is as it was in some state.
pub fn handled_traps_keep_rules()
    ensures { (vs : List CapValue) (any : List Range) (rules : List Terms) (o entry s : State) → Encloses (Contains vs)
        → KeepsRules (Contains vs) rules → IsState o → IsDirect o → o.devices.halted ≡ None → BeginsAt o entry
        → IsHandled rules (Contains vs) (IsKept vs any) o entry_marks entry → IsState s → IsAmongCode (Contains vs) (IsKept vs any) o s
        → AlwaysHold rules s }
{
    any_code_keeps_to_its_set::<Listed>();
}
