//! Stretches: runs up to the first event that traps, unseals or jumps through a seal.

ghost use Rattle.std.specs.Prelude.{◌≡◌, ℕ, ◌+◌, ◌≤◌, ◌++◌, length, take, drop, vec_len, vec_capacity, IsOk, IfOk, IfErr, OnErr};
ghost use Rattle.std.specs.Prelude.{None, Some, OnOk};
ghost use Rattle.steps.specs.Ends.{why_of};
ghost use Rattle.steps.specs.Event.{after, outcome, sent};
ghost use Rattle.steps.specs.IsState.{IsState};
ghost use Rattle.machine.specs.Run.{run_after, run_sent};
ghost use Rattle.machine.specs.Stretch.{ArePlain, EndsBefore, IsSameStretch};
ghost use Rattle.steps.specs.State.{State};
ghost use Rattle.authority.specs.Authority.{NoNewRights, NewSealsAllowed, LeavesAlone, IsSilent};
ghost use Rattle.authority.specs.Worlds.{Agree};

use crate::fault::MachineFault;
use crate::machine::{Machine, emit};
use cap_bounds::CapRep;
use steps::{Event, Out, Why};

/// How far a stretch went.
#[derive(Clone, Copy, Debug, PartialEq, Eq)]
pub struct Stretch {
    /// How many events were met.
    pub done: usize,
    /// Why the next one was not, or `None` where all were.
    pub why: Option<Why>,
}

impl<C: CapRep> Machine<C> {
    /// Why an event, if it came now, would end a stretch, or `None` where it would not. Nothing changes.
    #[inline]
    pub fn next_ends(&self, event: Event) -> Option<Why>
        ensures why { result ≡ why_of (outcome event self.now) }
        ensures state { IsState self.now }
    {
        self.hart.next_ends(event)
    }

    /// Meets an event unless it would end a stretch, and then says why. A step is planned once.
    #[inline]
    fn meet_plain(&mut self, event: Event) -> Result<Out, Why>
        ensures plain { OnOk result (why_of (outcome event self.old) ≡ None) }
        ensures state { OnOk result (self.new ≡ after event self.old) }
        ensures byte { IfOk result (λ out. out.byte ≡ sent event self.old) }
        ensures why { IfErr result (λ why. why_of (outcome event self.old) ≡ Some why) }
        ensures same { OnErr result (self.new ≡ self.old) }
        ensures was_state { IsState self.old }
        ensures is_state { IsState self.new }
    {
        self.hart.meet_plain(event)
    }

    /// Meets events in order up to the first that would end the stretch, and appends the sent bytes to `out`.
    ///
    /// After each of the events that are met, what is reachable is within the rights of what was reachable at the start, a seal that
    /// is new is a sentry's or one that a capability reachable at the start may put on, and what no such capability opens is left
    /// alone. From every state that agrees with the start, the same events make the same stretch, and agree after each. Room is made
    /// as for `run`, and M5 leaves the same.
    pub fn run_stretch(
        &mut self,
        events: &[Event],
        out: &mut Vec<u8>,
    ) -> Result<Stretch, MachineFault>
        ensures state { IfOk result (λ r. self.new ≡ run_after (take r.done events.now) self.old) }
        ensures bytes { IfOk result (λ r. out.new.items ≡ out.old.items ++ run_sent (take r.done events.now) self.old) }
        ensures some { IfOk result (λ r. r.done ≤ length events.now) }
        ensures plain { IfOk result (λ r. ArePlain (take r.done events.now) self.old) }
        ensures end { IfOk result (λ r. EndsBefore r.why (drop r.done events.now) self.new) }
        ensures is_state { IsState self.new }

        ensures no_new_rights { IfOk result (λ r. (k : ℕ) → k ≤ r.done → NoNewRights self.old (run_after (take k events.now) self.old)) }
        ensures new_seals { IfOk result (λ r. (k : ℕ) → k ≤ r.done → NewSealsAllowed self.old (run_after (take k events.now) self.old)) }
        ensures left_alone { IfOk result (λ r. (k : ℕ) → k ≤ r.done → LeavesAlone self.old (run_after (take k events.now) self.old)) }
        ensures silent { IfOk result (λ r. IsSilent self.old (run_sent (take r.done events.now) self.old)) }

        ensures two_worlds { IfOk result (λ r. (t : State) → Agree self.old t → IsSameStretch events.now r.done r.why self.old t) }

        ensures fault { IfErr result (λ fault. fault ≡ MachineFault.M5) }
        ensures same_state { OnErr result (self.new ≡ self.old) }
        ensures same_bytes { OnErr result (out.new.items ≡ out.old.items) }
        ensures room { vec_len out.old + length events.now ≤ vec_capacity out.old → IsOk result }
    {
        if out.reserve(events.len()).is_err() {
            self.hart.is_state();
            return Err(MachineFault::M5);
        }
        let mut done = 0;
        for event in events {
            match self.meet_plain(*event) {
                Ok(sent) => emit(out, sent.byte),
                Err(why) => {
                    let why = Some(why);
                    return Ok(Stretch { done, why });
                }
            }
            done += 1;
        }
        self.hart.is_state();
        Ok(Stretch { done, why: None })
    }
}
