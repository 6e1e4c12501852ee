//! What the events of a window of a session's past wrote, and how.
ghost use Rattle.std.specs.Prelude.{◌≡◌, ◌≤◌, ◌++◌, OnOk, IfOk, option_copied};
ghost use Rattle.steps.specs.Applying.{IsPlanned};
ghost use Rattle.steps.specs.Event.{after};
ghost use Rattle.steps.specs.Step.{step_fetched};
ghost use Rattle.steps.specs.declared.event.Event.TheVariants.{Step};
ghost use Rattle.past.specs.Given.{count_of};
ghost use Rattle.past.specs.Giving.{HasSameSize};
ghost use Rattle.origin_texts.specs.Log.{IsLog};
ghost use Rattle.origin_texts.specs.Origin.{history};
ghost use Rattle.origin_texts.specs.Writes as spec;
ghost use Rattle.origin_texts.specs.Writes.{IsGrown, made_there, noted};

use crate::states::opening_machine;
use base::{is_scr, scr};
use cap_bounds::CapRep;
use machine::{Event, Machine, Planned};
use origins::{Found, Making, Place, is_there, step_made};
use past::{Past, Replay};
use schedules::{Count, Progress};
use std::alloc::{AllocError, Global};
use steps::Effect;

/// A place, and an event that wrote it.
#[derive(Clone, Copy, Debug)]
pub struct Link {
    /// The place.
    pub place: Place,
    /// The event.
    pub found: Found,
}

/// Register 0, which nothing writes.
const NOWHERE: Place = Place::Register(0);

/// The granule of a byte.
fn granule_of(address: u64) -> Place
    ensures { result ≡ spec.granule_of address }
{
    Place::Granule(address / 16 * 16)
}

/// PCC and a register.
fn with_register(rd: u8) -> [Place; 4]
    ensures { result ≡ spec.with_register rd }
{
    [
        Place::Special(scr::PCC),
        Place::Register(rd),
        NOWHERE,
        NOWHERE,
    ]
}

/// PCC and a granule.
fn with_granule(address: u64) -> [Place; 4]
    ensures { result ≡ spec.with_granule address }
{
    [
        Place::Special(scr::PCC),
        granule_of(address),
        NOWHERE,
        NOWHERE,
    ]
}

/// The places that an effect may write.
fn written_by<C: CapRep>(effect: &Effect<C>) -> [Place; 4]
    ensures { result ≡ spec.written_by effect.now }
{
    let pcc = Place::Special(scr::PCC);
    match effect {
        Effect::Trap(_) => [pcc, Place::Special(scr::MEPCC), NOWHERE, NOWHERE],
        Effect::Write(write) => with_register(write.rd),
        Effect::Unseal(write) => with_register(write.rd),
        Effect::DeviceLoad(load) => with_register(load.rd),
        Effect::Link(link) => with_register(link.rd),
        Effect::Enter(enter) => with_register(enter.rd),
        Effect::Special(write) => [
            pcc,
            Place::Register(write.rd),
            Place::Special(write.number),
            NOWHERE,
        ],
        Effect::Csr(write) => [
            pcc,
            Place::Register(write.rd),
            Place::Special(scr::MTCC),
            Place::Special(scr::MEPCC),
        ],
        Effect::Store(store) => with_granule(store.address),
        Effect::StoreCapability(store) => with_granule(store.address),
        _ => [pcc, NOWHERE, NOWHERE, NOWHERE],
    }
}

/// Whether there is such a place.
pub(crate) fn is_in<C: CapRep>(machine: &Machine<C>, place: Place) -> bool
    ensures { result ≡ spec.is_in machine.now place }
{
    match place {
        Place::Register(n) => n < 32,
        Place::Special(n) => is_scr(n),
        Place::Granule(address) => address % 16 == 0 && is_there(machine, place),
    }
}

/// How the next step makes what it writes at a place, if there is such a place and it does.
fn made_there<C: CapRep>(machine: &Machine<C>, planned: &Planned<C>, place: Place) -> Option<Making>
    requires planned { IsPlanned C.value planned.now.effect machine.now }
    requires fetched { planned.now.fetched ≡ step_fetched machine.now }
    ensures { result ≡ spec.made_there machine.now place }
{
    if is_in(machine, place) {
        step_made(machine, planned, place)
    } else {
        None
    }
}

/// Logs what the next step writes at places.
fn log_places<C: CapRep>(
    log: &mut Vec<Link>,
    machine: &Machine<C>,
    planned: &Planned<C>,
    places: [Place; 4],
    before: u64,
) -> Result<(), AllocError>
    requires planned { IsPlanned C.value planned.now.effect machine.now }
    requires fetched { planned.now.fetched ≡ step_fetched machine.now }
    ensures { OnOk result (log.new.items ≡ log.old.items ++ noted (made_there machine.now) before places) }
{
    for place in &places {
        if let Some(making) = made_there(machine, planned, *place) {
            log.push(Link {
                place: *place,
                found: Found { before, making },
            })?;
        }
    }
    Ok(())
}

/// Does the next step, and logs what it wrote.
fn log_step<C: CapRep>(
    log: &mut Vec<Link>,
    machine: &mut Machine<C>,
    before: u64,
) -> Result<(), AllocError>
    ensures state { OnOk result (machine.new ≡ after Step machine.old) }
    ensures log { OnOk result (IsGrown before Step machine.old log.old.items log.new.items) }
{
    let planned = machine.next();
    let places = written_by(&planned.effect);
    log_places(log, machine, &planned, places, before)?;
    machine.apply(planned);
    Ok(())
}

/// Meets an event, and logs what it wrote: a tick and a byte write nothing.
fn log_event<C: CapRep>(
    log: &mut Vec<Link>,
    machine: &mut Machine<C>,
    event: Event,
    before: u64,
) -> Result<(), AllocError>
    ensures state { OnOk result (machine.new ≡ after event machine.old) }
    ensures log { OnOk result (IsGrown before event machine.old log.old.items log.new.items) }
    ensures size { OnOk result (HasSameSize machine.old machine.new) }
{
    machine.hart();
    match event {
        Event::Step => log_step(log, machine, before),
        Event::Tick => {
            machine.event(event);
            Ok(())
        }
        Event::Byte(_) => {
            machine.event(event);
            Ok(())
        }
    }
}

/// The log of the events from one on to another, which `counted` counts.
pub(crate) fn log_of<P: Progress>(
    alloc: Global,
    past: &Past,
    replay: Option<&Replay>,
    from: u64,
    to: u64,
    counted: &mut Count<'_, P>,
) -> Result<Vec<Link>, AllocError>
    requires order { from ≤ to }
    requires few { to ≤ count_of past.now.given }
    ensures { IfOk result (λ log. IsLog (history past.now (option_copied replay.entry)) from to log.items) }
{
    let mut machine = opening_machine(alloc, past)?;
    let mut events = past.events(replay);
    events.give(&mut machine, from);
    let mut log = Vec::new(alloc);
    let mut met = from;
    while met < to {
        let event = events.next_event().unwrap();
        log_event(&mut log, &mut machine, event, met)?;
        counted.pass(1);
        met += 1;
    }
    Ok(log)
}
