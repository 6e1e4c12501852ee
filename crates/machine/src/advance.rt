//! Many steps in one call, and runs of them among other events.

ghost use Rattle.std.specs.Prelude.{◌≡◌, ◌≤◌, ◌-◌, ℕ, ◌<◌, [], None, length, take, replicate, option_to_list};
ghost use Rattle.steps.specs.declared.event.Event.TheVariants.{Step};
ghost use Rattle.steps.specs.IsState.{IsState};
ghost use Rattle.steps.specs.State.{pc_of};
ghost use Rattle.steps.specs.Steps.{GoesBy};
ghost use Rattle.machine.specs.Run.{run_after, run_sent};
ghost use Rattle.machine.specs.Steps.{BeginWithSteps};

use crate::machine::Machine;
use cap_bounds::CapRep;
use steps::{Advance, Event};

/// How many steps events begin with.
fn leading_steps(events: &[Event]) -> usize
    ensures few { result ≤ length events.now }
    ensures steps { BeginWithSteps result events.now }
{
    let mut count = 0;
    for event in events {
        match event {
            Event::Step => count += 1,
            _ => break,
        }
    }
    count
}

/// How many steps events begin with, where so many are known: they are counted anew only where none is.
pub(crate) fn known_steps(events: &[Event], known: usize) -> usize
    requires few { known ≤ length events.now }
    requires steps { BeginWithSteps known events.now }
    ensures few { result ≤ length events.now }
    ensures steps { BeginWithSteps result events.now }
{
    if known == 0 {
        leading_steps(events)
    } else {
        known
    }
}

impl<C: CapRep> Machine<C> {
    /// Does steps, one at least and `most` at most, and answers how many and the byte that they sent, if they sent one.
    ///
    /// They are those of `event`, one after the other, only faster: a step that stores into a device, takes a byte or replaces the
    /// default data capability is the last of its call. A halted machine ignores them. It takes no memory.
    #[inline]
    pub fn advance(&mut self, most: u64) -> Advance
        requires { 1 ≤ most }
        ensures some { 1 ≤ result.steps }
        ensures few { result.steps ≤ most }
        ensures state { self.new ≡ run_after (replicate result.steps Step) self.old }
        ensures bytes { run_sent (replicate result.steps Step) self.old ≡ option_to_list result.byte }
        ensures silent { run_sent (replicate (result.steps - 1) Step) self.old ≡ [] }
        ensures devices { (k : ℕ) → k < result.steps → (run_after (replicate k Step) self.old).devices ≡ self.old.devices }
        ensures is_state { IsState self.new }
    {
        self.hart.advance(most)
    }

    /// Does steps, `most` at most and maybe none, and answers how many: it ends before a step that stands at `stop`, that traps, unseals,
    /// replaces PCC, or that changes a device or writes a system register.
    ///
    /// They are those of `event`, and none of them sends a byte. A halted machine does none. It takes no memory.
    #[inline]
    pub fn advance_short_of(&mut self, stop: Option<u64>, most: u64) -> u64
        ensures few { result ≤ most }
        ensures state { self.new ≡ run_after (replicate result Step) self.old }
        ensures silent { run_sent (replicate result Step) self.old ≡ [] }
        ensures goes { (k : ℕ) → k < result → GoesBy stop (run_after (replicate k Step) self.old) }
        ensures is_state { IsState self.new }
    {
        self.hart.advance_short_of(stop, most)
    }

    /// Does steps as `advance_short_of` does, short of no address: it ends before a step that stands below `low`, or at `high` or above.
    ///
    /// They are those of `event`, and none of them sends a byte. A halted machine does none. It takes no memory.
    #[inline]
    pub fn advance_between(&mut self, low: u64, high: u64, most: u64) -> u64
        ensures few { result ≤ most }
        ensures state { self.new ≡ run_after (replicate result Step) self.old }
        ensures silent { run_sent (replicate result Step) self.old ≡ [] }
        ensures goes { (k : ℕ) → k < result → GoesBy None (run_after (replicate k Step) self.old) }
        ensures low { (k : ℕ) → k < result → low ≤ pc_of (run_after (replicate k Step) self.old) }
        ensures high { (k : ℕ) → k < result → pc_of (run_after (replicate k Step) self.old) < high }
        ensures is_state { IsState self.new }
    {
        self.hart.advance_between(low, high, most)
    }

    /// Meets the first of events, or of the steps that they begin with as many as are done at once, and answers how many those are.
    #[inline]
    pub(crate) fn meet_first(&mut self, events: &[Event], steps: usize) -> Advance
        requires any { 1 ≤ length events.now }
        requires few { steps ≤ length events.now }
        requires steps { BeginWithSteps steps events.now }
        ensures some { 1 ≤ result.steps }
        ensures few { result.steps ≤ length events.now }
        ensures state { self.new ≡ run_after (take result.steps events.now) self.old }
        ensures bytes { run_sent (take result.steps events.now) self.old ≡ option_to_list result.byte }
    {
        if steps == 0 {
            let out = self.event(events[0]);
            return Advance {
                steps: 1,
                byte: out.byte,
            };
        }
        self.advance(steps as u64)
    }
}
