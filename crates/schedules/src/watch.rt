//! Watches: who is told of a walk.

ghost use Rattle.std.specs.Prelude.{◌≡◌, ◌≤◌, ◌-◌, ◌++◌, ℕ, Bool, List, [], ◌∷◌, Option, IfErr, OnOk, replicate, option_to_list};
ghost use Rattle.steps.specs.declared.event.Event.{Event};
ghost use Rattle.steps.specs.declared.event.Event.TheVariants.{Step, Tick, Byte};
ghost use Rattle.steps.specs.State.{State};
ghost use Rattle.steps.specs.Event.{after as after_event, sent as sent_at};
ghost use Rattle.machine.specs.Run.{run_after, run_sent};
ghost use Rattle.schedules.specs.Schedule.{is_halted};
ghost use Rattle.schedules.specs.Pace.{GoBy, most_of};

use crate::pace::Pace;
use crate::seen::Seen;

/// What is told of a walk, and may end it: by stopping before a step, or by failing.
///
/// It says how fast the machine may go. Where it is asked, it is asked before a step and told after it; of other steps it is told at once,
/// and knows of them what its pace says. What it remembers is a relation that goes on over events.
pub trait Watch<M: Seen> {
    ghost use Rattle.schedules.specs.declared.pace.Pace.{Pace};

    /// Why it fails.
    type Fault;

    // From the one to the other it was told of these events of a machine in this state.
    ghost Saw: { List Event → State → Self → Self → Type 0 };

    // It failed at the last of these events.
    ghost Lost: { Self.Fault → List Event → State → Self → Self → Type 0 };

    // It was told of these events, and failed before the step after them.
    ghost Barred: { Self.Fault → List Event → State → Self → Self → Type 0 };

    // From the one to the other it was asked before a step.
    ghost Asked: { State → Self → Self → Type 0 };

    // It can be told of an event.
    ghost IsReady: { Self → Type 0 };

    ghost pace_of: { Self → Pace };

    // Whether it stops before the next step of a state.
    ghost stops_at: { Self → State → Bool };

    /// How fast the machine may go on.
    fn pace(&self) -> Pace
        ensures { result ≡ pace_of self.now };

    /// Whether it stops before the next step.
    fn stops(&self, machine: &M, planned: &M::Plan) -> bool
        requires planned { M.is_plan planned.now (M.state machine.now) }
        requires running { is_halted (M.state machine.now) ≡ Bool.false }
        ensures { result ≡ stops_at self.now (M.state machine.now) };

    /// A byte came to the machine, or a tick.
    fn came(&mut self, machine: &M)
        requires { IsReady self.old }
        ensures byte { (b : ℕ) (s : State) → M.state machine.now ≡ after_event (Byte b) s → Saw (Byte b ∷ []) s self.old self.new }
        ensures tick { (s : State) → M.state machine.now ≡ after_event Tick s → Saw (Tick ∷ []) s self.old self.new }
        ensures ready { IsReady self.new };

    /// So many steps of the machine went at once; the last may have sent a byte.
    fn passed(&mut self, machine: &M, steps: u64, sent: Option<u8>) -> Result<(), Self::Fault>
        requires some { 1 ≤ steps }
        requires few { steps ≤ most_of (pace_of self.old) }
        requires ready { IsReady self.old }
        ensures ok { (s : State) → M.state machine.now ≡ run_after (replicate steps Step) s
            → run_sent (replicate steps Step) s ≡ option_to_list sent → run_sent (replicate (steps - 1) Step) s ≡ []
            → GoBy (pace_of self.old).speed steps s → OnOk result (Saw (replicate steps Step) s self.old self.new) }
        ensures err { (s : State) → M.state machine.now ≡ run_after (replicate steps Step) s
            → run_sent (replicate steps Step) s ≡ option_to_list sent → run_sent (replicate (steps - 1) Step) s ≡ []
            → GoBy (pace_of self.old).speed steps s
            → IfErr result (λ fault. Lost fault (replicate steps Step) s self.old self.new) }
        ensures ready { OnOk result (IsReady self.new) };

    /// The next step of the machine is to be done.
    fn before(&mut self, machine: &M, planned: &M::Plan) -> Result<(), Self::Fault>
        requires planned { M.is_plan planned.now (M.state machine.now) }
        requires running { is_halted (M.state machine.now) ≡ Bool.false }
        requires ready { IsReady self.old }
        ensures ok { stops_at self.old (M.state machine.now) ≡ Bool.false → OnOk result (Asked (M.state machine.now) self.old self.new) }
        ensures err { stops_at self.old (M.state machine.now) ≡ Bool.false
            → IfErr result (λ fault. Barred fault [] (M.state machine.now) self.old self.new) }
        ensures ready { OnOk result (IsReady self.new) };

    /// It was done, and may have sent a byte.
    fn after(&mut self, machine: &M, sent: Option<u8>) -> Result<(), Self::Fault>
        requires ready { IsReady self.old }
        ensures ok { (s : State) (v : Self) → Asked s v self.old → M.state machine.now ≡ after_event Step s → sent ≡ sent_at Step s
            → OnOk result (Saw (Step ∷ []) s v self.new) }
        ensures err { (s : State) (v : Self) → Asked s v self.old → M.state machine.now ≡ after_event Step s → sent ≡ sent_at Step s
            → IfErr result (λ fault. Lost fault (Step ∷ []) s v self.new) }
        ensures ready { OnOk result (IsReady self.new) };

    ghost starts: { (s : State) (w : Self) → Saw [] s w w };

    ghost goes_on: { (xs ys : List Event) (s : State) (u v w : Self) → Saw xs s u v → Saw ys (run_after xs s) v w → Saw (xs ++ ys) s u w };

    ghost fails_later: { (fault : Self.Fault) (xs ys : List Event) (s : State) (u v w : Self)
        → Saw xs s u v → Lost fault ys (run_after xs s) v w → Lost fault (xs ++ ys) s u w };

    ghost bars_later: { (fault : Self.Fault) (xs ys : List Event) (s : State) (u v w : Self)
        → Saw xs s u v → Barred fault ys (run_after xs s) v w → Barred fault (xs ++ ys) s u w };
}
