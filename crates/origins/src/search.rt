//! What is sought in a history of events.
ghost use Rattle.std.specs.Prelude.{◌≡◌, ◌-◌, ◌^◌, ◌<◌, suc, ◌&&◌, if◌then◌else◌, None, IfSome};
ghost use Rattle.cap_bounds.specs.CapValue as value;
ghost use Rattle.steps.specs.Applying.{IsPlanned};
ghost use Rattle.steps.specs.Event.{after};
ghost use Rattle.steps.specs.declared.event.Event.TheVariants.{Step};
ghost use Rattle.origins.specs.Kept.{AreThere};
ghost use Rattle.origins.specs.Made.{made_at};
ghost use Rattle.origins.specs.Parts as parts;
ghost use Rattle.origins.specs.Places.{IsThere};
ghost use Rattle.origins.specs.Places as places;
ghost use Rattle.origins.specs.Search as spec;

use crate::holding::held;
use crate::making::Making;
use crate::place::Place;
use crate::written::step_made;
use cap_bounds::CapRep;
use machine::{Event, Machine, Planned};

/// What is sought of a place.
#[derive(Clone, Copy, Debug, PartialEq, Eq)]
pub enum Sought {
    /// The last event that wrote it.
    Written,
    /// The last event at which the tag there went.
    Lost,
}

/// An event that was found.
#[derive(Clone, Copy, Debug)]
pub struct Found {
    /// How many events were before it.
    pub before: u64,
    /// How it made what it wrote.
    pub making: Making,
}

/// A search for the last event that does something at a place, in events as they are met.
#[derive(Clone, Copy, Debug)]
pub struct Search {
    /// What is sought.
    pub sought: Sought,
    /// Where.
    pub place: Place,
    /// How many events were met.
    pub before: u64,
    /// The last of them that did it.
    pub found: Option<Found>,
}

/// Whether what a place holds is tagged.
fn is_tagged<C: CapRep>(machine: &Machine<C>, place: Place) -> bool
    requires { IsThere place machine.now }
    ensures { result ≡ value.is_tagged (places.held place machine.now) }
{
    held(machine, place).tag()
}

/// Whether what a place holds, if there is one, is tagged.
fn is_tagged_at<C: CapRep>(machine: &Machine<C>, place: Option<Place>) -> bool
    requires { IfSome place (λ there. IsThere there machine.now) }
    ensures { result ≡ spec.is_tagged_at place machine.now }
{
    match place {
        Some(place) => is_tagged(machine, place),
        None => false,
    }
}

/// Does a step that was planned.
fn apply<C: CapRep>(machine: &mut Machine<C>, planned: Planned<C>, place: Place)
    requires planned { IsPlanned C.value planned.effect machine.old }
    requires there { IsThere place machine.old }
    ensures state { machine.new ≡ after Step machine.old }
    ensures there { IsThere place machine.new }
{
    machine.hart();
    machine.apply(planned);
}

/// Meets an event.
fn pass<C: CapRep>(machine: &mut Machine<C>, event: Event, place: Place)
    requires { IsThere place machine.old }
    ensures state { machine.new ≡ after event machine.old }
    ensures there { IsThere place machine.new }
{
    machine.hart();
    machine.event(event);
}

/// Meets a step, and answers how it made what it wrote at a place.
fn meet_step<C: CapRep>(machine: &mut Machine<C>, place: Place) -> Option<Making>
    requires { IsThere place machine.old }
    ensures state { machine.new ≡ after Step machine.old }
    ensures made { result ≡ made_at place Step machine.old }
    ensures there { IsThere place machine.new }
{
    let planned = machine.next();
    let made = step_made(machine, &planned, place);
    apply(machine, planned, place);
    made
}

/// Whether what a step writes at a place replaces something tagged, or is made of it.
fn had_tag<C: CapRep>(machine: &Machine<C>, place: Place, made: Option<Making>) -> bool
    requires there { IsThere place machine.now }
    requires sources { IfSome made (λ making. AreThere making machine.now) }
    ensures { result ≡ parts.had_tag place made machine.now }
{
    match made {
        Some(making) => is_tagged(machine, place) || is_tagged_at(machine, making.source()),
        None => false,
    }
}

/// What was made, where the tag that was there is gone.
fn if_lost(made: Option<Making>, gone: bool, had: bool) -> Option<Making>
    ensures { result ≡ if gone && had then made else None }
{
    if gone && had { made } else { None }
}

/// Meets a step, and answers how it made what it wrote at a place where the tag went.
fn lose_step<C: CapRep>(machine: &mut Machine<C>, place: Place) -> Option<Making>
    requires { IsThere place machine.old }
    ensures state { machine.new ≡ after Step machine.old }
    ensures made { result ≡ spec.lost_at place (made_at place Step machine.old) Step machine.old }
    ensures there { IsThere place machine.new }
{
    let planned = machine.next();
    let made = step_made(machine, &planned, place);
    let had = had_tag(machine, place, made);
    apply(machine, planned, place);
    let gone = !is_tagged(machine, place);
    if_lost(made, gone, had)
}

/// Meets an event, and answers how it made what it wrote at a place.
fn written_at<C: CapRep>(machine: &mut Machine<C>, place: Place, event: Event) -> Option<Making>
    requires { IsThere place machine.old }
    ensures state { machine.new ≡ after event machine.old }
    ensures made { result ≡ made_at place event machine.old }
    ensures there { IsThere place machine.new }
{
    match event {
        Event::Step => meet_step(machine, place),
        Event::Tick => {
            pass(machine, event, place);
            None
        }
        Event::Byte(_) => {
            pass(machine, event, place);
            None
        }
    }
}

/// Meets an event, and answers how it made what it wrote at a place where the tag went.
fn lost_at<C: CapRep>(machine: &mut Machine<C>, place: Place, event: Event) -> Option<Making>
    requires { IsThere place machine.old }
    ensures state { machine.new ≡ after event machine.old }
    ensures made { result ≡ spec.lost_at place (made_at place event machine.old) event machine.old }
    ensures there { IsThere place machine.new }
{
    match event {
        Event::Step => lose_step(machine, place),
        Event::Tick => {
            pass(machine, event, place);
            None
        }
        Event::Byte(_) => {
            pass(machine, event, place);
            None
        }
    }
}

/// Meets an event, and answers how it does what is sought at a place, if it does.
fn done_at<C: CapRep>(
    machine: &mut Machine<C>,
    sought: Sought,
    place: Place,
    event: Event,
) -> Option<Making>
    requires { IsThere place machine.old }
    ensures state { machine.new ≡ after event machine.old }
    ensures done { result ≡ spec.done_at sought place event machine.old }
    ensures there { IsThere place machine.new }
{
    match sought {
        Sought::Written => written_at(machine, place, event),
        Sought::Lost => lost_at(machine, place, event),
    }
}

impl Search {
    /// A search that has met no event.
    pub fn new(sought: Sought, place: Place) -> Self
        ensures sought { result.sought ≡ sought }
        ensures place { result.place ≡ place }
        ensures before { result.before ≡ 0 }
        ensures found { result.found ≡ None }
    {
        Search {
            sought,
            place,
            before: 0,
            found: None,
        }
    }

    /// Meets an event with the machine.
    pub fn meet<C: CapRep>(&mut self, machine: &mut Machine<C>, event: Event)
        requires there { IsThere self.old.place machine.old }
        requires more { self.old.before < 2 ^ 64 - 1 }
        ensures state { machine.new ≡ after event machine.old }
        ensures before { self.new.before ≡ suc self.old.before }
        ensures found { self.new.found
            ≡ spec.newer self.old.before (spec.done_at self.old.sought self.old.place event machine.old) self.old.found }
        ensures sought { self.new.sought ≡ self.old.sought }
        ensures place { self.new.place ≡ self.old.place }
        ensures there { IsThere self.new.place machine.new }
    {
        let before = self.before;
        if let Some(making) = done_at(machine, self.sought, self.place, event) {
            self.found = Some(Found { before, making });
        }
        self.before = before + 1;
    }
}
