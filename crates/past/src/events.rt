//! The events of a past, in order.
ghost use Rattle.std.specs.Prelude.{◌≡◌, ◌+◌, ◌<◌, ◌^◌, ◌≤◌, [], ◌∷◌, IfSome, IfNone, drop, option_copied, take};
ghost use Rattle.past.specs.Given.{count_of, count_of_one, events_of, events_of_one, position_after_one};
ghost use Rattle.machine.specs.Run.{run_after};
ghost use Rattle.past.specs.Giving.{HasSameSize};
ghost use Rattle.past.specs.Position.{Position, beginning};

use crate::given::{Given, count_of_one};
use crate::giving::{give, next_of};
use crate::player::Player;
use crate::replay::Replay;
use cap_bounds::CapRep;
use machine::{Event, Machine};
use std::marker::Model;

/// A command that gave events, and those after it.
struct Next<'a> {
    given: Given,
    later: &'a [Given],
}

/// The first command that gave events, and those after it.
fn first_giving<'a>(all: &'a [Given]) -> Option<Next<'a>>
    ensures some { IfSome result (λ next. 0 < count_of_one next.given) }
    ensures count { IfSome result (λ next. count_of all.now ≡ count_of_one next.given + count_of next.later.now) }
    ensures events { IfSome result (λ next. (p : Position)
        → events_of all.now p ≡ events_of (next.given ∷ next.later.now) p) }
    ensures none { IfNone result ((p : Position) → events_of all.now p ≡ []) }
{
    let mut rest = all;
    while let [given, later @ ..] = rest {
        if count_of_one(*given) > 0 {
            return Some(Next {
                given: *given,
                later,
            });
        }
        rest = later;
    }
    None
}

/// The events that commands gave, as they are to come yet.
#[derive(Drop)]
pub struct PastEvents<'a> {
    player: Player<'a>,
    /// The command whose events come next, and how many of them are to come yet.
    given: Given,
    left: u64,
    /// The commands after it.
    later: &'a [Given],
}

impl<'a> Model for PastEvents<'a> {
    ghost use Rattle.std.specs.Prelude.{List, ◌++◌, ◌+◌};
    ghost use Rattle.steps.specs.declared.event.Event.{Event};
    ghost use Rattle.past.specs.Given.{count_of, events_of};
    ghost use Rattle.past.specs.Giving.{place_after, some_of};
    ghost use Rattle.past.specs.Position.{MayGive};

    ghost Value = { List Event };

    ghost view = { λ e. some_of e.left e.given e.player ++ events_of e.later.now (place_after e.left e.given e.player) };

    ghost invariant = { λ e. MayGive (e.left + count_of e.later.now) e.player };
}

impl<'a> PastEvents<'a> {
    /// The events of commands from the beginning of a session's steps.
    pub(crate) fn new(replay: Option<&'a Replay>, all: &'a [Given]) -> Self
        requires { count_of all.now < 2 ^ 64 }
        ensures { result ≡ events_of all.entry.now (beginning (option_copied replay.entry)) }
    {
        PastEvents {
            player: Player::at_beginning(replay),
            given: Given::Steps(0),
            left: 0,
            later: all,
        }
    }

    /// The next event. It is none of those that are to come from here on.
    pub fn next_event(&mut self) -> Option<Event>
        ensures some { IfSome result (λ event. self.old ≡ event ∷ self.new) }
        ensures none { IfNone result (self.old ≡ []) }
    {
        if self.left == 0 {
            let Next { given, later } = first_giving(self.later)?;
            self.given = given;
            self.left = count_of_one(given);
            self.later = later;
        }
        self.left -= 1;
        Some(next_of(&mut self.player, self.given))
    }

    /// Gives some of the next events of one command to a machine, at most `n`, and answers how many.
    fn give_some<C: CapRep>(&mut self, machine: &mut Machine<C>, n: u64) -> u64
        requires { 1 ≤ n }
        ensures events { self.new ≡ drop result self.old }
        ensures state { machine.new ≡ run_after (take result self.old) machine.old }
        ensures size { HasSameSize machine.old machine.new }
        ensures few { result ≤ n }
        ensures none { result ≡ 0 → self.old ≡ [] }
    {
        machine.hart();
        if self.left == 0 {
            let Some(Next { given, later }) = first_giving(self.later) else {
                return 0;
            };
            self.given = given;
            self.left = count_of_one(given);
            self.later = later;
        }
        let some = self.left.min(n);
        give(machine, &mut self.player, self.given, some);
        self.left -= some;
        some
    }

    /// Gives the next `n` events to a machine, or all that are left where they are fewer.
    pub fn give<C: CapRep>(&mut self, machine: &mut Machine<C>, n: u64)
        ensures events { self.new ≡ drop n self.old }
        ensures state { machine.new ≡ run_after (take n self.old) machine.old }
        ensures size { HasSameSize machine.old machine.new }
    {
        let mut left = n;
        while left > 0 {
            let given = self.give_some(machine, left);
            if given == 0 {
                return;
            }
            left -= given;
        }
    }
}
