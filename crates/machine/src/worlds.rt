//! Two worlds: machines that agree in all that reachable capabilities open can't be told apart by what runs in them.

ghost use Rattle.std.specs.Prelude.{◌≡◌, ℕ, ◌+◌, ◌≤◌, ◌++◌, List, Option, length, take, vec_len, vec_capacity};
ghost use Rattle.std.specs.Prelude.{IsOk, IfOk, IfErr, OnOk, OnErr};
ghost use Rattle.steps.specs.declared.ends.Why.{Why};
ghost use Rattle.steps.specs.declared.event.Event.{Event};
ghost use Rattle.steps.specs.IsState.{IsState};
ghost use Rattle.steps.specs.State.{State};
ghost use Rattle.authority.specs.Worlds.{Agree};
ghost use Rattle.machine.specs.Run.{run_after, run_sent};
ghost use Rattle.machine.specs.Stretch.{IsStretch};

use crate::fault::MachineFault;
use crate::machine::Machine;
use crate::stretch::Stretch;
use cap_bounds::CapRep;
use steps::Event;

/// The stretches of two machines over the same events.
#[derive(Clone, Copy, Debug, PartialEq, Eq)]
pub struct Both {
    pub one: Stretch,
    pub two: Stretch,
}

/// A state and a list of events have one stretch: how far it goes and why it ends are determined.
pub fn events_make_one_stretch()
    ensures { (events : List Event) (s : State) (i j : ℕ) (v w : Option Why) → IsStretch events i v s → IsStretch events j w s
        → (i ≡ j) × (v ≡ w) }
{}

/// Makes room for so many bytes more in both lists, whose bytes stay. M5 is out of memory.
fn make_room(one: &mut Vec<u8>, two: &mut Vec<u8>, count: usize) -> Result<(), MachineFault>
    ensures one_items { one.new.items ≡ one.old.items }
    ensures two_items { two.new.items ≡ two.old.items }
    ensures one_room { OnOk result (vec_len one.new + count ≤ vec_capacity one.new) }
    ensures two_room { OnOk result (vec_len two.new + count ≤ vec_capacity two.new) }
    ensures fault { IfErr result (λ fault. fault ≡ MachineFault.M5) }
    ensures spare { vec_len one.old + count ≤ vec_capacity one.old → vec_len two.old + count ≤ vec_capacity two.old → IsOk result }
{
    if one.reserve(count).is_err() {
        return Err(MachineFault::M5);
    }
    if two.reserve(count).is_err() {
        return Err(MachineFault::M5);
    }
    Ok(())
}

/// Runs the same stretch of events in two machines that agree, whatever represents their capabilities, and appends the bytes that each
/// sends to its own list.
///
/// They go equally far and end for the same reason, they send the same bytes, and they agree after it. Room for one byte an event is
/// made in both lists before the first event. M5: there is no room, and then neither machine and neither list is changed; where
/// both lists have that room already, nothing is asked for and M5 can't come.
pub fn run_both<C: CapRep, D: CapRep>(
    one: &mut Machine<C>,
    two: &mut Machine<D>,
    events: &[Event],
    one_out: &mut Vec<u8>,
    two_out: &mut Vec<u8>,
) -> Result<Both, MachineFault>
    requires { Agree one.old two.old }
    ensures stretch { IfOk result (λ r. IsStretch events.now r.one.done r.one.why one.old) }
    ensures one_state { IfOk result (λ r. one.new ≡ run_after (take r.one.done events.now) one.old) }
    ensures two_state { IfOk result (λ r. two.new ≡ run_after (take r.one.done events.now) two.old) }
    ensures done { IfOk result (λ r. r.one.done ≡ r.two.done) }
    ensures why { IfOk result (λ r. r.one.why ≡ r.two.why) }
    ensures one_bytes { IfOk result (λ r. one_out.new.items ≡ one_out.old.items ++ run_sent (take r.one.done events.now) one.old) }
    ensures two_bytes { IfOk result (λ r. two_out.new.items ≡ two_out.old.items ++ run_sent (take r.one.done events.now) one.old) }
    ensures agree { Agree one.new two.new }
    ensures one_is_state { IsState one.new }
    ensures two_is_state { IsState two.new }

    ensures fault { IfErr result (λ fault. fault ≡ MachineFault.M5) }
    ensures same_one { OnErr result (one.new ≡ one.old) }
    ensures same_two { OnErr result (two.new ≡ two.old) }
    ensures same_one_bytes { OnErr result (one_out.new.items ≡ one_out.old.items) }
    ensures same_two_bytes { OnErr result (two_out.new.items ≡ two_out.old.items) }
    ensures room { vec_len one_out.old + length events.now ≤ vec_capacity one_out.old
        → vec_len two_out.old + length events.now ≤ vec_capacity two_out.old → IsOk result }
{
    one.hart.is_state();
    two.hart.is_state();
    make_room(one_out, two_out, events.len())?;
    let first = one.run_stretch(events, one_out).unwrap();
    let second = two.run_stretch(events, two_out).unwrap();
    Ok(Both {
        one: first,
        two: second,
    })
}
