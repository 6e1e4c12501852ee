//! A schedule that a session's steps follow.
ghost use Rattle.std.specs.Prelude.{◌≡◌, ◌≤◌, Some, false};
ghost use Rattle.past.specs.Replay.{byte_due, byte_events, is_over, is_tick_due, replay_from, replayed, step_done};
ghost use Rattle.schedules.specs.Schedule.{byte_before, is_tick_after};

use schedules::Schedule;
use std::marker::Model;

/// A schedule and the bytes of its input, and how many of its steps were given.
#[derive(Drop)]
pub struct Replay {
    schedule: Schedule,
    input: Vec<u8>,
    done: u64,
    /// Whether the byte before the next step was given.
    brought: bool,
}

impl Model for Replay {
    ghost use Rattle.std.specs.Prelude.{◌≤◌};
    ghost use Rattle.past.specs.Replay.{ReplayState};

    ghost Value = { ReplayState };

    ghost view = { λ r. record { schedule = r.schedule; input = r.input.items; done = r.done; brought = r.brought } };

    ghost invariant = { λ r. 1 ≤ r.schedule.gap };
}

impl Replay {
    /// A schedule before its first step.
    pub fn new(schedule: Schedule, input: Vec<u8>) -> Self
        requires { 1 ≤ schedule.gap }
        ensures { result ≡ replay_from schedule input.items }
    {
        Replay {
            schedule,
            input,
            done: 0,
            brought: false,
        }
    }

    /// Whether all of its steps were given.
    pub fn is_over(&self) -> bool
        ensures { result ≡ is_over (Some self.now) }
    {
        self.schedule.steps <= self.done
    }

    /// The byte before the next step, unless it was given. From here on it counts as given.
    pub fn take_byte(&mut self) -> Option<u8>
        requires { is_over (Some self.old) ≡ false }
        ensures byte { result ≡ byte_due (Some self.old) }
        ensures replay { self.new ≡ replayed (byte_events (Some self.old)) self.old }
    {
        if self.brought {
            return None;
        }
        let byte = self.schedule.byte_before(&self.input, self.done + 1);
        self.brought = byte.is_some();
        byte
    }

    /// Counts the next step as given, and answers whether a tick comes after it.
    pub fn count_step(&mut self) -> bool
        requires { is_over (Some self.old) ≡ false }
        ensures ticks { result ≡ is_tick_due (Some self.old) }
        ensures replay { self.new ≡ step_done self.old }
    {
        self.done += 1;
        self.brought = false;
        self.schedule.is_tick_after(self.done)
    }

    /// Puts it where so many of its steps were given, and the byte before the next of them or not.
    pub fn stand_at(&mut self, done: u64, brought: bool)
        ensures { self.new ≡ record self.old { done = done; brought = brought } }
    {
        self.done = done;
        self.brought = brought;
    }

    /// The byte that comes just before a step, counted from 1.
    pub(crate) fn byte_before(&self, step: u64) -> Option<u8>
        requires { 1 ≤ step }
        ensures { result ≡ byte_before self.now.schedule self.now.input step }
    {
        self.schedule.byte_before(&self.input, step)
    }

    /// Whether a tick comes after a step, counted from 1.
    pub(crate) fn is_tick_after(&self, step: u64) -> bool
        ensures { result ≡ is_tick_after self.now.schedule step }
    {
        self.schedule.is_tick_after(step)
    }
}
