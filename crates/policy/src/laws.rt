//! What a policy means for whole runs: the contract is a law over the definitions alone, and the body is empty.
ghost use Rattle.std.specs.Prelude.{◌≡◌, ◌↔◌, true, ℕ, ◌+◌, ◌-◌, ◌%◌, ◌<◌, ◌≤◌, false, List, [], length, take, Contains, slice_index};
ghost use Rattle.std.specs.Prelude.{◌≢◌, ◌⊎◌, Option, Some};
ghost use Rattle.std.specs.List.{HoldsAt};
ghost use Rattle.base.specs.Ram.{ram_base};
ghost use Rattle.base.specs.ObjectType.{is_reserved};
ghost use Rattle.cap_bounds.specs.CapValue.{CapValue, is_sealed, value_otype};
ghost use Rattle.cap_rights.specs.Permission.{permits};
ghost use Rattle.cap_rights.specs.declared.permission.Permission.TheVariants.{Global};
ghost use Rattle.tagged_memory.specs.Memory.{has_tag};
ghost use Rattle.devices.specs.Devices.{control_register, mtimecmp};
ghost use Rattle.steps.specs.declared.event.Event.{Event};
ghost use Rattle.steps.specs.Event.{outcome};
ghost use Rattle.steps.specs.IsState.{IsState};
ghost use Rattle.steps.specs.Outcome.{Trap};
ghost use Rattle.steps.specs.State.{State};
ghost use Rattle.authority.specs.Authority.{SameScrs, SameCsrs};
ghost use Rattle.authority.specs.Reachable.{IsHeldAt, IsReachable};
ghost use Rattle.machine.specs.Run.{run_after, run_sent};
ghost use Rattle.reach.specs.Ranges.{IsInOne};
ghost use Rattle.policy.specs.Terms.{Terms};
ghost use Rattle.policy.specs.declared.rule.Ban.{Ban};
ghost use Rattle.policy.specs.Rule.{Breaks};
ghost use Rattle.policy.specs.Tests.{applies, breaks, is_about};
ghost use Rattle.policy.specs.Watch.{AllowsType, Applies, DiffersOutside, Holds, IsAbout, IsTrapEntry, KeepsTo, fetched_at};
ghost use Rattle.policy.specs.Run.{KeepToEach, AppliesToEach, NoneTraps, NoneUnseals};

/// A rule that nothing reachable breaks is kept at every event, whatever the code is: traps, unsealings and sealed jumps among them.
pub fn rules_that_hold_are_kept()
    ensures { (rule : Terms) (e : Event) (s : State) → IsState s → Holds rule s → KeepsTo rule e s }
{}

/// Over the events of a watched run to each of which a rule applies, traps, unsealings and sealed jumps among them: the bytes and tags of
/// RAM outside its ranges for stores stay; a granule that doesn't lie wholly in its ranges for keeping comes to hold nothing without Global
/// that it didn't hold; nothing is sent, the machine is not halted and the timer's interrupt is not set where it says no, and
/// without a trap the system registers stay; the console's control register stays, unless it is given for stores; what is fetched lies in
/// its ranges for fetches, and what can be fetched next in those or in what it lets be entered, but for a trap's entry; what is reachable
/// and sealed, but for sentries, has an object type that it allows, and nothing is unsealed where it says no; and from a state that differs
/// only outside its ranges for loads and fetches the same bytes are sent, and the state at the end differs only there.
pub fn runs_keep_to_a_rule()
    ensures bytes { (rules : List Terms) (rule : Terms) (events : List Event) (done : ℕ) (s : State) → done ≤ length events
        → KeepToEach rules events done s → Contains rules rule → AppliesToEach rule events done s → (a : ℕ) → ram_base ≤ a
        → (IsInOne rule.store a → ⊥)
        → slice_index (run_after (take done events) s).memory.bytes (a - ram_base) ≡ slice_index s.memory.bytes (a - ram_base) }
    ensures tags { (rules : List Terms) (rule : Terms) (events : List Event) (done : ℕ) (s : State) → done ≤ length events
        → KeepToEach rules events done s → Contains rules rule → AppliesToEach rule events done s → (granule : ℕ) → ram_base ≤ granule
        → ((a : ℕ) → granule ≤ a → a < granule + 16 → IsInOne rule.store a → ⊥)
        → has_tag (run_after (take done events) s).memory granule ≡ has_tag s.memory granule }
    ensures kept { (rules : List Terms) (rule : Terms) (events : List Event) (done : ℕ) (s : State) → done ≤ length events
        → KeepToEach rules events done s → Contains rules rule → AppliesToEach rule events done s → (granule a : ℕ) (v : CapValue)
        → granule % 16 ≡ 0 → ram_base ≤ granule → granule ≤ a → a < granule + 16 → (IsInOne rule.keep a → ⊥)
        → permits v Global ≡ false → IsHeldAt (run_after (take done events) s).memory granule v → IsHeldAt s.memory granule v }
    ensures silent { (rules : List Terms) (rule : Terms) (events : List Event) (done : ℕ) (s : State) → done ≤ length events
        → KeepToEach rules events done s → Contains rules rule → AppliesToEach rule events done s → rule.transmit ≡ false
        → run_sent (take done events) s ≡ [] }
    ensures halt { (rules : List Terms) (rule : Terms) (events : List Event) (done : ℕ) (s : State) → done ≤ length events
        → KeepToEach rules events done s → Contains rules rule → AppliesToEach rule events done s → rule.halt ≡ false
        → (run_after (take done events) s).devices.halted ≡ s.devices.halted }
    ensures timer { (rules : List Terms) (rule : Terms) (events : List Event) (done : ℕ) (s : State) → done ≤ length events
        → KeepToEach rules events done s → Contains rules rule → AppliesToEach rule events done s → rule.timer ≡ false
        → mtimecmp (run_after (take done events) s).devices ≡ mtimecmp s.devices }
    ensures console { (rules : List Terms) (rule : Terms) (events : List Event) (done : ℕ) (s : State) → done ≤ length events
        → KeepToEach rules events done s → Contains rules rule → AppliesToEach rule events done s
        → (IsInOne rule.store control_register → ⊥) → (run_after (take done events) s).devices.control ≡ s.devices.control }
    ensures system { (rules : List Terms) (rule : Terms) (events : List Event) (done : ℕ) (s : State) → done ≤ length events
        → KeepToEach rules events done s → Contains rules rule → AppliesToEach rule events done s → rule.system ≡ false
        → NoneTraps events done s
        → SameScrs s.scrs (run_after (take done events) s).scrs × SameCsrs s.csrs (run_after (take done events) s).csrs }
    ensures fetched { (rules : List Terms) (rule : Terms) (events : List Event) (done : ℕ) (s : State) → done ≤ length events
        → KeepToEach rules events done s → Contains rules rule → AppliesToEach rule events done s → (k pc a : ℕ) → k < done
        → fetched_at (run_after (take k events) s) ≡ Some pc → pc ≤ a → a < pc + 4 → IsInOne rule.execute a }
    ensures leads { (rules : List Terms) (rule : Terms) (events : List Event) (done : ℕ) (s : State) → done ≤ length events
        → KeepToEach rules events done s → Contains rules rule → AppliesToEach rule events done s → (k pc : ℕ) → k < done
        → HoldsAt (λ e. outcome e (run_after (take k events) s) ≢ Trap) events k
        → fetched_at (run_after (take (k + 1) events) s) ≡ Some pc → IsInOne rule.execute pc ⊎ IsInOne rule.enter pc }
    ensures traps { (rules : List Terms) (rule : Terms) (events : List Event) (done : ℕ) (s : State) → done ≤ length events
        → KeepToEach rules events done s → Contains rules rule → AppliesToEach rule events done s → (k : ℕ) → k < done
        → HoldsAt (λ e. outcome e (run_after (take k events) s) ≡ Trap) events k
        → IsTrapEntry (run_after (take k events) s) (run_after (take (k + 1) events) s) }
    ensures types { (rules : List Terms) (rule : Terms) (events : List Event) (done : ℕ) (s : State) → done ≤ length events
        → KeepToEach rules events done s → Contains rules rule → AppliesToEach rule events done s → (k : ℕ) (v : CapValue) → k < done
        → IsReachable (run_after (take k events) s) v → is_sealed v ≡ true → is_reserved (value_otype v) ≡ false
        → AllowsType rule (value_otype v) }
    ensures unseals { (rules : List Terms) (rule : Terms) (events : List Event) (done : ℕ) (s : State) → done ≤ length events
        → KeepToEach rules events done s → Contains rules rule → AppliesToEach rule events done s → rule.seal ≡ false
        → NoneUnseals events done s }
    ensures same_bytes { (rules : List Terms) (rule : Terms) (events : List Event) (done : ℕ) (s t : State) → done ≤ length events
        → KeepToEach rules events done s → Contains rules rule → AppliesToEach rule events done s → DiffersOutside rule s t
        → run_sent (take done events) t ≡ run_sent (take done events) s }
    ensures same_state { (rules : List Terms) (rule : Terms) (events : List Event) (done : ℕ) (s t : State) → done ≤ length events
        → KeepToEach rules events done s → Contains rules rule → AppliesToEach rule events done s → DiffersOutside rule s t
        → DiffersOutside rule (run_after (take done events) s) (run_after (take done events) t) }
{}

/// The tests for a capability that breaks a part of a rule, for a rule about the code at an address and for a rule that applies are what
/// policies mean by it.
pub fn tests_mean_what_policies_say()
    ensures breaks { (rule : Terms) (ban : Ban) (c : CapValue) → (breaks rule ban c ≡ true) ↔ Breaks rule ban c }
    ensures about { (rule : Terms) (pc : ℕ) → (is_about rule pc ≡ true) ↔ IsAbout rule pc }
    ensures applies { (rule : Terms) (at : Option ℕ) → (applies rule at ≡ true) ↔ Applies rule at }
{}
