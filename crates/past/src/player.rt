//! The events of a session's steps, one after the other.
ghost use Rattle.std.specs.Prelude.{◌≡◌, IfSome, IsTrue, None, false, option_copied, option_map};
ghost use Rattle.past.specs.Position.{at, beginning, next_event, next_position, standing_at, MayGive};
ghost use Rattle.past.specs.Replay.{byte_due, is_tick_due, step_done};

use crate::replay::Replay;
use machine::Event;
use std::marker::Model;

/// Where the steps of a session stand: in its schedule, if it has one, and whether the tick after the last step is to come yet.
#[derive(Drop)]
pub struct Player<'a> {
    replay: Option<&'a Replay>,
    /// How many steps of the schedule were given.
    done: u64,
    /// Whether the byte before the next step was given.
    brought: bool,
    owed: bool,
}

impl<'a> Model for Player<'a> {
    ghost use Rattle.std.specs.Prelude.{option_copied, option_map};
    ghost use Rattle.past.specs.Position.{Position, standing_at};

    ghost Value = { Position };

    ghost view = { λ p. record { replay = option_map (standing_at p.done p.brought) (option_copied p.replay); owed = p.owed } };
}

impl<'a> Player<'a> {
    /// Before the first event.
    pub fn at_beginning(replay: Option<&'a Replay>) -> Self
        ensures { result ≡ beginning (option_copied replay.entry) }
    {
        Player {
            replay,
            done: 0,
            brought: false,
            owed: false,
        }
    }

    /// Where so many steps of the schedule were given, if there is one, and the byte before the next step or not.
    pub(crate) fn standing(replay: Option<&'a Replay>, done: u64, brought: bool, owed: bool) -> Self
        ensures { result ≡ at (option_map (standing_at done brought) (option_copied replay.entry)) owed }
    {
        Player {
            replay,
            done,
            brought,
            owed,
        }
    }

    /// Whether they are steps alone from here on.
    pub(crate) fn is_alone(&self) -> bool
        ensures { IsTrue result → self.now ≡ at None false }
    {
        self.replay.is_none() && !self.owed
    }

    /// The next event. It counts as given from here on.
    pub fn next_event(&mut self) -> Event
        requires { MayGive 1 self.old }
        ensures event { result ≡ next_event self.old }
        ensures position { self.new ≡ next_position self.old }
    {
        if self.owed {
            self.owed = false;
            return Event::Tick;
        }
        match self.byte_due() {
            Some(byte) => {
                self.brought = true;
                Event::Byte(byte)
            }
            None => {
                self.count_step();
                Event::Step
            }
        }
    }

    /// The byte before the next step, unless it was given.
    fn byte_due(&self) -> Option<u8>
        requires { MayGive 1 self.now }
        ensures { result ≡ byte_due self.now.replay }
    {
        match self.replay {
            Some(replay) if !self.brought => replay.byte_before(self.done + 1),
            _ => None,
        }
    }

    /// Counts the next step as given; the tick after it is to come if there is one.
    fn count_step(&mut self)
        requires { MayGive 1 self.old }
        ensures { self.new ≡ at (option_map step_done self.old.replay) (is_tick_due self.old.replay) }
    {
        self.owed = false;
        if let Some(replay) = self.replay {
            self.done += 1;
            self.brought = false;
            self.owed = replay.is_tick_after(self.done);
        }
    }

    /// How many steps of the schedule were given.
    pub fn done(&self) -> u64
        ensures { IfSome self.now.replay (λ replay. result ≡ replay.done) }
    {
        self.done
    }

    /// Whether the byte before the schedule's next step was given.
    pub fn brought(&self) -> bool
        ensures { IfSome self.now.replay (λ replay. result ≡ replay.brought) }
    {
        self.brought
    }

    /// Whether the tick after the last step is to come yet.
    pub fn owed(&self) -> bool
        ensures { result ≡ self.now.owed }
    {
        self.owed
    }
}
