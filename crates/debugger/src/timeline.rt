//! A machine, the schedule that its steps follow, and what it was given.
use cap_bounds::CapRep;
use machine::Machine;
use past::{Anchor, Past, Replay};
use std::marker::Model;

/// A machine that meets the events of commands: on a schedule, if there is one, and with its past since the opening state of its image,
/// if it has one.
#[derive(Drop)]
pub(crate) struct Timeline<C: CapRep> {
    pub(crate) machine: Machine<C>,
    pub(crate) replay: Option<Replay>,
    /// Whether the tick after the last step is to come yet.
    pub(crate) owed: bool,
    pub(crate) past: Option<Past>,
    /// A place in the past from which `back` gives events again, which is no part of the timeline's value.
    pub(crate) anchor: Option<Anchor<C>>,
}

impl<C: CapRep> Model for Timeline<C> {
    ghost use Rattle.std.specs.Coded.{codes};
    ghost use Rattle.tagged_memory.specs.Layout.{memory_code};
    ghost use Rattle.debugger.specs.Keeping.{IsKept};
    ghost use Rattle.debugger.specs.SessionState.{TimelineState};

    ghost Value = { TimelineState };

    ghost coded = { Prim.hlevel (codes, memory_code) };

    ghost view = { λ t. record { machine = t.machine; replay = t.replay; owed = t.owed; past = t.past } };

    ghost invariant = { λ t. IsKept (record { machine = t.machine; replay = t.replay; owed = t.owed; past = t.past }) t.anchor };
}
