//! Sessions.
ghost use Rattle.std.specs.Prelude.{◌≡◌, ◌≤◌, ◌⊎◌, [], false, None, Err, IfOk, IfErr, IfSome, OnOk, OnErr};
ghost use Rattle.debugger.specs.Reply.{allowed, command_in, is_beyond, is_outside, state_after};
ghost use Rattle.debugger.specs.SessionState.{HasItsPast, begun, session_of_image, session_state, session_with};
ghost use Rattle.hart.specs.Opening.{opening};
ghost use Rattle.debug_commands.specs.Command.{command_of as command_of_line};
ghost use Rattle.debug_commands.specs.Limits.{IsWithinLimits};
ghost use Rattle.debugger.specs.Answers.{seen_reply, IsAnswer};

use crate::answer::{answer, is_outside};
use crate::recalling::is_beyond;
use crate::reply::Reply;
use crate::timeline::Timeline;
use cap_bounds::CapRep;
use debug_commands::{Command, DebugFault, Stop, command_of};
use image::Image;
use machine::Machine;
use past::{Past, Replay};
use schedules::{Count, Nobody, Progress, Schedule};
use std::alloc::Global;
use std::marker::Model;
use symbols::Symbols;
use word_cap::WordCap;

/// A machine that is driven by commands, with labels that these may name, stops, and a schedule if one is given.
#[derive(Drop)]
pub struct Session<C: CapRep> {
    alloc: Global,
    timeline: Timeline<C>,
    symbols: Symbols,
    stops: Vec<Stop>,
}

impl<C: CapRep> Model for Session<C> {
    ghost use Rattle.std.specs.Coded.{codes};
    ghost use Rattle.tagged_memory.specs.Layout.{memory_code};
    ghost use Rattle.debugger.specs.SessionState.{SessionState, session_with};

    ghost Value = { SessionState };

    ghost coded = { Prim.hlevel (codes, memory_code) };

    ghost view = { λ s. session_with s.timeline s.symbols s.stops.items };
}

/// The command that a line writes, if it may be done: of a command's faults B1 comes before B2 and B2 before B3.
fn accepted<C: CapRep>(
    timeline: &Timeline<C>,
    symbols: &Symbols,
    line: &[u8],
) -> Result<Command, DebugFault>
    ensures value { result ≡ allowed (command_of_line symbols.now line.now) timeline.now.past timeline.now.machine }
    ensures limits { IfOk result IsWithinLimits }
    ensures past { IfOk result (λ command. is_beyond command timeline.now.past ≡ false) }
    ensures inside { IfOk result (λ command. is_outside command timeline.now.machine ≡ false) }
{
    let command = command_of(symbols, line)?;
    if is_beyond(timeline, command) {
        return Err(DebugFault::B2);
    }
    if is_outside(&timeline.machine, command) {
        return Err(DebugFault::B3);
    }
    Ok(command)
}

impl<C: CapRep> Session<C> {
    /// A session with a machine, and without labels. It takes no memory; `alloc` is kept for its replies.
    pub fn new(alloc: Global, machine: Machine<C>) -> Self
        ensures { result ≡ session_state machine [] }
    {
        Session::with_symbols(alloc, machine, Symbols::new(alloc))
    }

    /// A session with a machine, whose commands take the labels of a table where they take an address. It takes no memory; `alloc` is
    /// kept for its replies.
    pub fn with_symbols(alloc: Global, machine: Machine<C>, symbols: Symbols) -> Self
        ensures { result ≡ session_state machine symbols }
    {
        Session::begun(alloc, machine, symbols, None, None)
    }

    /// A session with a past: its machine stands in the opening state of an image, which is kept, as is each event that it is given. So it
    /// can go back, and tell where a value came from and where a tag was lost. With a schedule, before its first step, the steps of `step`,
    /// `until`, `trap` and `go` are those of a run on this schedule with this input: each comes with the byte before it and the tick after
    /// it, counted over the whole session, and nothing comes after the halt, nor after the schedule's last step. Without one the input is
    /// not used.
    pub fn with_past(
        alloc: Global,
        machine: Machine<C>,
        image: Image,
        symbols: Symbols,
        schedule: Option<Schedule>,
        input: Vec<u8>,
    ) -> Self
        requires opening { machine ≡ opening image }
        requires gap { IfSome schedule (λ schedule. 1 ≤ schedule.gap) }
        ensures { result ≡ session_of_image image symbols schedule input.items }
    {
        let replay = match schedule {
            Some(schedule) => Some(Replay::new(schedule, input)),
            None => None,
        };
        Session::begun(
            alloc,
            machine,
            symbols,
            replay,
            Some(Past::new(alloc, image)),
        )
    }

    /// A session with these, and without stops.
    fn begun(
        alloc: Global,
        machine: Machine<C>,
        symbols: Symbols,
        replay: Option<Replay>,
        past: Option<Past>,
    ) -> Self
        requires { HasItsPast (begun machine replay past) }
        ensures { result ≡ session_with (begun machine replay past) symbols [] }
    {
        Session {
            alloc,
            timeline: Timeline {
                machine,
                replay,
                owed: false,
                past,
                anchor: None,
            },
            symbols,
            stops: Vec::new(alloc),
        }
    }

    /// The machine.
    pub fn machine(&self) -> &Machine<C>
        ensures { result.now ≡ self.now.machine }
    {
        &self.timeline.machine
    }
}

impl Session<WordCap> {
    /// Does what a line asks for, and answers its reply.
    ///
    /// Commands are `step N`, `tick N`, `byte B`, `until ADDR [N]`, `trap [N]`, `go [N]`, `stop at ADDR`, `stop changed R`,
    /// `stop changed ADDR [LEN]`, `stop trap`, `stop off`, `stops`, `changed R N`, `back N`, `back to stop`, `ago`, `origin R`, `lost R`,
    /// `calls`, `reg R`, `regs`, `scr`, `csr`, `caps`, `mem ADDR [LEN]`, `dis [ADDR [N]]`, `why`, `reach`, `may`, `help` and `quit`;
    /// numbers are those of the assembly language, and ADDR is a number or, if it is not one, a label of the session, or such a label
    /// with a number added to it or taken away from it. A line whose first word begins with `#` is answered with nothing. `step`, `tick`,
    /// `byte`, `until`, `trap`, `go`, `changed` and `back` change the machine, those of `stop` the stops, and none changes the labels.
    ///
    /// Refused with B1 where the line has no word or its first is no command; with B2 where its operands are others, and where the
    /// line has more than 255 bytes or one of 128 or more, whatever its words; where a session without a past is asked for one, where more
    /// is to be taken back than was given, where no stop holds at a place before, and where more than 100000000 events are to be searched;
    /// with B3 where some byte to be shown or watched is outside RAM; with B4 where there is no memory for the reply. A refused line
    /// changes nothing: the reply's room is made before the first event.
    pub fn command(&mut self, line: &str) -> Result<Reply, DebugFault>
        ensures ok { IfOk result (λ reply. IsAnswer line.now self.old (seen_reply reply)) }
        ensures state { OnOk result (self.new ≡ state_after line.now self.old) }
        ensures err { IfErr result (λ fault. (fault ≡ DebugFault.B4) ⊎ (command_in line.now self.old ≡ Err fault)) }
        ensures same { OnErr result (self.new ≡ self.old) }
    {
        self.command_bytes(line.as_bytes(), &mut Nobody)
    }

    /// The same of a line whose bytes need not be text. `progress` is told from time to time how many events were given or searched.
    pub(crate) fn command_bytes<P: Progress>(
        &mut self,
        line: &[u8],
        progress: &mut P,
    ) -> Result<Reply, DebugFault>
        ensures ok { IfOk result (λ reply. IsAnswer line.now self.old (seen_reply reply)) }
        ensures state { OnOk result (self.new ≡ state_after line.now self.old) }
        ensures err { IfErr result (λ fault. (fault ≡ DebugFault.B4) ⊎ (command_in line.now self.old ≡ Err fault)) }
        ensures same { OnErr result (self.new ≡ self.old) }
    {
        let command = accepted(&self.timeline, &self.symbols, line)?;
        answer(
            self.alloc,
            &mut self.timeline,
            &self.symbols,
            &mut self.stops,
            command,
            &mut Count::new(progress),
        )
    }
}
