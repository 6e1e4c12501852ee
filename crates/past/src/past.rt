//! What a session was given since the opening state of its image.
ghost use Rattle.std.specs.Prelude.{◌≡◌, ◌+◌, ◌-◌, ◌^◌, ◌≤◌, ◌++◌, [], ◌∷◌, length, IfOk, IfErr, OnOk, OnErr, Option, option_copied, take};
ghost use Rattle.hart.specs.Opening.{opening};
ghost use Rattle.origins.specs.Places.{IsThere};
ghost use Rattle.origins.specs.Search.{last};
ghost use Rattle.past.specs.Anchor.{IsKeptOn, LiesOn};
ghost use Rattle.past.specs.Giving.{HasSameSize};
ghost use Rattle.past.specs.Given.{but_last, count_of, count_of_one, first_of, past_events, past_of, position_at, state_at};
ghost use Rattle.past.specs.Replay.{ReplayState};

use crate::anchor::{Anchor, nearest};
use crate::cutting::{keep_first, set_last};
use crate::events::PastEvents;
use crate::given::{Given, count_of_one};
use crate::giving::{give_after, give_from_beginning};
use crate::player::Player;
use crate::replay::Replay;
use crate::seeking::last_of;
use cap_bounds::CapRep;
use image::Image;
use machine::{Machine, MachineFault};
use origins::{Found, Place, Sought};
use schedules::{Count, Progress};
use std::alloc::{AllocError, Global};
use std::marker::Model;

/// An image, and what was given since its opening state.
#[derive(Drop)]
pub struct Past {
    image: Image,
    given: Vec<Given>,
    /// How many events that were.
    count: u64,
}

impl Model for Past {
    ghost use Rattle.std.specs.Prelude.{◌≡◌};
    ghost use Rattle.past.specs.Given.{PastState, count_of, past_of};

    ghost Value = { PastState };

    ghost view = { λ p. past_of p.image p.given.items };

    ghost invariant = { λ p. p.count ≡ count_of p.given.items };
}

/// A way of more events than this is long.
const LONG_WAY: u64 = 1 << 14;

/// How many events before the end of a long way an anchor is kept.
const SHORT_WAY: u64 = 1 << 13;

impl Past {
    /// The past of a session that begins.
    pub fn new(alloc: Global, image: Image) -> Self
        ensures { result ≡ past_of image [] }
    {
        Past {
            image,
            given: Vec::new(alloc),
            count: 0,
        }
    }

    /// How many events there were.
    pub fn count(&self) -> u64
        ensures value { result ≡ count_of self.now.given }
        ensures events { (replay : Option ReplayState) → result ≡ length (past_events self.now replay) }
    {
        self.count
    }

    /// Makes room for one more command.
    pub fn make_room(&mut self) -> Result<(), AllocError>
        ensures { self.new ≡ self.old }
    {
        self.given.reserve(1)
    }

    /// Notes what a command gave.
    pub fn push(&mut self, given: Given) -> Result<(), AllocError>
        requires few { count_of self.old.given + count_of_one given ≤ 2 ^ 64 - 1 }
        ensures ok { OnOk result (self.new ≡ record self.old { given = self.old.given ++ given ∷ [] }) }
        ensures err { OnErr result (self.new ≡ self.old) }
    {
        self.given.push(given)?;
        self.count += count_of_one(given);
        Ok(())
    }

    /// Puts what a command gave in place of what the last one did. It takes no memory.
    pub fn set_last(&mut self, given: Given)
        requires some { 1 ≤ length self.old.given }
        requires few { count_of (but_last self.old.given) + count_of_one given ≤ 2 ^ 64 - 1 }
        ensures { self.new ≡ record self.old { given = but_last self.old.given ++ given ∷ [] } }
    {
        let before = set_last(&mut self.given, given);
        self.count -= count_of_one(before);
        self.count += count_of_one(given);
    }

    /// Keeps the first `n` events, and forgets those after them. It takes no memory.
    pub fn keep(&mut self, n: u64)
        ensures { self.new ≡ record self.old { given = first_of n self.old.given } }
    {
        keep_first(&mut self.given, n);
        self.count = self.count.min(n);
    }

    /// The events, in order.
    pub fn events<'a>(&'a self, replay: Option<&'a Replay>) -> PastEvents<'a>
        ensures { result ≡ past_events self.now (option_copied replay.entry) }
    {
        // read, since the range of what is read is known
        let _count = self.count;
        PastEvents::new(replay, &self.given)
    }

    /// A machine after the first `n` events, and where the session's steps stand there: M2 where there is no memory for it, and no other
    /// fault.
    pub fn machine_at<'a, C: CapRep>(
        &self,
        alloc: Global,
        replay: Option<&'a Replay>,
        n: u64,
    ) -> Result<(Machine<C>, Player<'a>), MachineFault>
        ensures machine { IfOk result (λ p. p.0 ≡ state_at n self.now (option_copied replay.entry)) }
        ensures position { IfOk result (λ p. p.1 ≡ position_at n self.now (option_copied replay.entry)) }
        ensures size { IfOk result (λ p. HasSameSize (opening self.now.image) p.0) }
        ensures fault { IfErr result (λ fault. fault ≡ MachineFault.M2) }
    {
        let mut machine = Machine::new(alloc, &self.image)?;
        let player = give_from_beginning(&mut machine, replay, &self.given, n);
        Ok((machine, player))
    }

    /// The same by an anchor: where it lies before, only the events after it are given again. On a long way an anchor is kept shortly
    /// before the end, if there is memory for one, so that going back again and again is fast after many events too.
    pub fn machine_by<'a, C: CapRep>(
        &self,
        alloc: Global,
        replay: Option<&'a Replay>,
        n: u64,
        anchor: &mut Option<Anchor<C>>,
    ) -> Result<(Machine<C>, Player<'a>), MachineFault>
        requires { IsKeptOn (count_of self.now.given) anchor.old self.now (option_copied replay) }
        ensures machine { IfOk result (λ p. p.0 ≡ state_at n self.now (option_copied replay.entry)) }
        ensures position { IfOk result (λ p. p.1 ≡ position_at n self.now (option_copied replay.entry)) }
        ensures size { IfOk result (λ p. HasSameSize (opening self.now.image) p.0) }
        ensures fault { IfErr result (λ fault. fault ≡ MachineFault.M2) }
        ensures kept { IsKeptOn n anchor.new self.now (option_copied replay.entry) }
    {
        let mut there = nearest(alloc, &self.image, n, anchor)?;
        self.lead_near(alloc, replay, n, &mut there, anchor);
        self.lead(replay, n, &mut there);
        let player = there.player(replay);
        Ok((there.machine, player))
    }

    /// Leads an anchor on to the first `n` events.
    fn lead<C: CapRep>(&self, replay: Option<&Replay>, n: u64, anchor: &mut Anchor<C>)
        requires { LiesOn n anchor.old self.now (option_copied replay) }
        ensures lies { LiesOn n anchor.new self.now (option_copied replay.entry) }
        ensures events { anchor.new.events ≡ n }
    {
        let mut player = anchor.player(replay);
        give_after(
            &mut anchor.machine,
            &mut player,
            &self.given,
            anchor.events,
            n - anchor.events,
        );
        anchor.events = n;
        anchor.done = player.done();
        anchor.brought = player.brought();
        anchor.owed = player.owed();
    }

    /// On a long way to the first `n` events leads an anchor on to shortly before the end, and keeps a copy of it in place of the one that
    /// was kept, where a copy pays and there is memory for it.
    fn lead_near<C: CapRep>(
        &self,
        alloc: Global,
        replay: Option<&Replay>,
        n: u64,
        there: &mut Anchor<C>,
        kept: &mut Option<Anchor<C>>,
    )
        requires there { LiesOn n there.old self.now (option_copied replay) }
        requires kept { IsKeptOn n kept.old self.now (option_copied replay) }
        ensures there { LiesOn n there.new self.now (option_copied replay.entry) }
        ensures kept { IsKeptOn n kept.new self.now (option_copied replay.entry) }
    {
        if n - there.events <= LONG_WAY {
            return;
        }
        self.lead(replay, n - SHORT_WAY, there);
        if let Some(copy) = there.kept(alloc) {
            *kept = Some(copy);
        }
    }

    /// The last of the first `n` events that does what is sought at a place, with how many events were before it and how it made what it
    /// wrote, and a machine after these `n`; `counted` counts them. M2 where there is no memory for the machine, and no other fault.
    pub fn last<C: CapRep, P: Progress>(
        &self,
        alloc: Global,
        replay: Option<&Replay>,
        sought: Sought,
        place: Place,
        n: u64,
        counted: &mut Count<'_, P>,
    ) -> Result<(Option<Found>, Machine<C>), MachineFault>
        requires { IsThere place (opening self.now.image) }
        ensures found { IfOk result (λ p. p.0
            ≡ last sought place (take n (past_events self.now (option_copied replay.entry))) (opening self.now.image)) }
        ensures machine { IfOk result (λ p. p.1 ≡ state_at n self.now (option_copied replay.entry)) }
        ensures fault { IfErr result (λ fault. fault ≡ MachineFault.M2) }
    {
        let mut machine = Machine::new(alloc, &self.image)?;
        let found = last_of(&mut machine, replay, sought, place, &self.given, n, counted);
        Ok((found, machine))
    }
}
