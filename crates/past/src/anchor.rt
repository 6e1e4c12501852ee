//! Places on the way of a session, from which later ones are reached without what came before them.
ghost use Rattle.std.specs.Prelude.{◌≡◌, ◌≤◌, ◌⊎◌, None, Some, IfOk, IfErr, IfSome, option_copied};
ghost use Rattle.past.specs.Anchor.{opening_anchor, stood};

use crate::player::Player;
use crate::replay::Replay;
use cap_bounds::CapRep;
use image::Image;
use machine::{Machine, MachineFault};
use std::alloc::Global;
use std::marker::Model;

/// How many events take about as long as to copy a page of RAM.
const EVENTS_OF_A_PAGE: u64 = 512;

/// A machine after so many of a session's events, and where the session's steps stand there.
#[derive(Drop)]
pub struct Anchor<C: CapRep> {
    pub(crate) events: u64,
    pub(crate) machine: Machine<C>,
    /// How many steps of the session's schedule were given, if it has one, and whether the byte before the next step was.
    pub(crate) done: u64,
    pub(crate) brought: bool,
    /// Whether the tick after the last step is to come yet.
    pub(crate) owed: bool,
}

impl<C: CapRep> Model for Anchor<C> {
    ghost use Rattle.std.specs.Coded.{codes};
    ghost use Rattle.tagged_memory.specs.Layout.{memory_code};
    ghost use Rattle.past.specs.Anchor.{AnchorState};

    ghost Value = { AnchorState };

    ghost coded = { Prim.hlevel (codes, memory_code) };

    ghost view = { λ a. record { events = a.events; machine = a.machine; done = a.done; brought = a.brought; owed = a.owed } };
}

impl<C: CapRep> Anchor<C> {
    /// Before the first event: M2 where there is no memory for its machine, and no other fault.
    fn new(alloc: Global, image: &Image) -> Result<Self, MachineFault>
        ensures ok { IfOk result (λ anchor. anchor ≡ opening_anchor image.now) }
        ensures err { IfErr result (λ fault. fault ≡ MachineFault.M2) }
    {
        let machine = Machine::new(alloc, image)?;
        Ok(Anchor {
            events: 0,
            machine,
            done: 0,
            brought: false,
            owed: false,
        })
    }

    /// Another at the same place, if there is memory for it.
    fn try_clone(&self, alloc: Global) -> Option<Self>
        ensures { IfSome result (λ anchor. anchor ≡ self.now) }
    {
        match self.machine.try_clone(alloc) {
            Ok(machine) => Some(Anchor {
                events: self.events,
                machine,
                done: self.done,
                brought: self.brought,
                owed: self.owed,
            }),
            Err(_) => None,
        }
    }

    /// The same, where to copy RAM takes no longer than to give the events before it again.
    pub(crate) fn kept(&self, alloc: Global) -> Option<Self>
        ensures { IfSome result (λ anchor. anchor ≡ self.now) }
    {
        if self.events / EVENTS_OF_A_PAGE < u64::from(self.machine.memory().pages()) {
            return None;
        }
        self.try_clone(alloc)
    }

    /// Where the session's steps stand.
    pub(crate) fn player<'a>(&self, replay: Option<&'a Replay>) -> Player<'a>
        ensures { result ≡ stood self.now (option_copied replay.entry) }
    {
        Player::standing(replay, self.done, self.brought, self.owed)
    }
}

/// A copy of an anchor, if it lies after `n` events at most and there is memory for one.
fn copy_before<C: CapRep>(alloc: Global, anchor: &Option<Anchor<C>>, n: u64) -> Option<Anchor<C>>
    ensures same { IfSome result (λ copy. anchor.now ≡ Some copy) }
    ensures few { IfSome result (λ copy. copy.events ≤ n) }
{
    match anchor {
        Some(anchor) if anchor.events <= n => anchor.try_clone(alloc),
        _ => None,
    }
}

/// A copy of an anchor that lies after `n` events at most, or else one before the first event, and then the other goes: M2 where there is
/// no memory for its machine, and no other fault.
pub(crate) fn nearest<C: CapRep>(
    alloc: Global,
    image: &Image,
    n: u64,
    anchor: &mut Option<Anchor<C>>,
) -> Result<Anchor<C>, MachineFault>
    ensures from { IfOk result (λ from. ((anchor.new ≡ anchor.old) × (anchor.old ≡ Some from))
        ⊎ ((anchor.new ≡ None) × (from ≡ opening_anchor image.now))) }
    ensures few { IfOk result (λ from. from.events ≤ n) }
    ensures fault { IfErr result (λ fault. (fault ≡ MachineFault.M2) × (anchor.new ≡ None)) }
{
    if let Some(copy) = copy_before(alloc, anchor, n) {
        return Ok(copy);
    }
    *anchor = None;
    Anchor::new(alloc, image)
}
