//! The calls of sessions.

use crate::sameness::are_same;
use crate::tried::{Done, Wrong};
use case_files::Paper;
use debugger::{DebugFault, Reply, Session, TalkFault, talk};
use image::FromRead;
use machine::{Event, Machine};
use word_cap::WordCap;

/// Commands, how many steps each does, and their replies.
const TYPED: [(&str, u64, &str); 3] = [
    ("step 2", 2, "events 2 out - pc 0000000080000008 running\n"),
    ("mem 0x80000000 4", 0, "0000000080000000: b7 05 00 10\n"),
    (
        "step 3",
        3,
        "events 3 out 41 pc 0000000080000014 halted 0\n",
    ),
];

/// What a conversation of these commands tells.
const TOLD: &str = "events 2 out - pc 0000000080000008 running\n0000000080000000: b7 05 00 10\n\
    events 3 out 41 pc 0000000080000014 halted 0\n";

/// Where a conversation may be broken off: how many bytes of what it tells are told by then, what is left to type, and the steps that were
/// done.
type Stage = (usize, &'static [u8], u64);

const STAGES: [Stage; 3] = [
    (0, b"step 2\nmem 0x80000000 4\nstep 3\nquit\nregs", 0),
    (43, b"mem 0x80000000 4\nstep 3\nquit\nregs", 2),
    (73, b"step 3\nquit\nregs", 2),
];

/// Gives a machine so many steps.
fn step(machine: &mut Machine<WordCap>, steps: u64) {
    for _ in 0..steps {
        machine.event(Event::Step);
    }
}

/// Whether a line is answered with this text.
fn answers(session: &mut Session<WordCap>, line: &str, reply: &str) -> Result<bool, DebugFault> {
    match session.command(line) {
        Ok(Reply::Text(text)) => Ok(text.as_str() == reply),
        Ok(_) => Ok(false),
        Err(fault) => Err(fault),
    }
}

/// Asks for a line, and again where it is refused. The other machine meets the steps.
fn asked(
    session: &mut Session<WordCap>,
    other: &mut Machine<WordCap>,
    typed: &(&'static str, u64, &'static str),
) -> Done {
    let (line, steps, reply) = *typed;
    let mut answered = answers(session, line, reply);
    let mut is_refused = false;
    if let Err(fault) = answered {
        if fault != DebugFault::B4 || !are_same(session.machine(), other) {
            return Err(Wrong("a refused command changes something"));
        }
        is_refused = true;
        answered = answers(session, line, reply);
    }
    step(other, steps);
    match answered {
        Ok(true) if are_same(session.machine(), other) => Ok(is_refused),
        _ => Err(Wrong("a command tells or leaves something else")),
    }
}

/// `command`, of each line in order. The other machine, which is in the same state before, meets the steps.
pub(crate) fn command(session: &mut Session<WordCap>, other: &mut Machine<WordCap>) -> Done {
    let mut is_refused = false;
    for typed in &TYPED {
        is_refused |= asked(session, other, typed)?;
    }
    Ok(is_refused)
}

/// Where a conversation was broken off that told this.
fn stage_of(told: &[u8]) -> Option<Stage> {
    let stage = STAGES.iter().find(|(length, _, _)| *length == told.len())?;
    TOLD.as_bytes().starts_with(told).then_some(*stage)
}

/// Holds a conversation from where it was broken off: to its end, where it tells what is left to tell and leaves the state of the other
/// machine after the steps that are left; or else answers where it is refused for memory.
fn held(
    session: &mut Session<WordCap>,
    other: &mut Machine<WordCap>,
    (told, left, steps): Stage,
) -> Result<(), Option<Stage>> {
    let mut paper = Paper::new();
    match talk(session, &mut FromRead::new(left), &mut paper) {
        Ok(()) => step(other, 5u64.saturating_sub(steps)),
        Err(TalkFault::Memory) => return Err(stage_of(paper.written())),
        Err(_) => return Err(None),
    }
    if TOLD.as_bytes().get(told..) == Some(paper.written()) && are_same(session.machine(), other) {
        Ok(())
    } else {
        Err(None)
    }
}

/// `talk`. Where it is refused, the lines before are answered and done and no other; it goes on with the line that was refused.
pub(crate) fn converse(session: &mut Session<WordCap>, other: &mut Machine<WordCap>) -> Done {
    let stage = match held(session, other, STAGES[0]) {
        Ok(()) => return Ok(false),
        Err(Some(stage)) => stage,
        Err(None) => return Err(Wrong("a conversation tells or leaves something else")),
    };
    let (_, _, steps) = stage;
    step(other, steps);
    if !are_same(session.machine(), other) {
        return Err(Wrong("a refused conversation leaves another state"));
    }
    match held(session, other, stage) {
        Ok(()) => Ok(true),
        Err(_) => Err(Wrong("a conversation that goes on tells or leaves something else")),
    }
}
