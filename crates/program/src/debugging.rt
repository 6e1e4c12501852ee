//! The command `debug`.

ghost use Rattle.std.specs.Prelude.{◌≡◌, ◌≤◌, IfErr, IfOk, IfSome, IsSomeAnd, is_some};
ghost use Rattle.std.specs.Io.KnownBytes.{Appends};
ghost use Rattle.debugger.specs.Conversation.{conversation};
ghost use Rattle.debugger.specs.SessionState.{session_of_image};
ghost use Rattle.debugger.specs.Talk.{heard};
ghost use Rattle.commands.specs.Files.{IsTextFault};
ghost use Rattle.program.specs.Debugging.{AreKeys, DebugsFile, FailsToDebug, IsTalkFault, schedule_asked};

use commands::{
    Folder, LoadedProgram, ProgramFault, ProgramMachine, Writing, load_program, read_text,
};
use debugger::{Session, TalkFault, talk_told};
use image::{DeviceFailed, FromRead, Image};
use machine::Machine;
use schedules::{Progress, Schedule};
use std::alloc::Global;
use std::io::{Read, Write};
use symbols::Symbols;
use word_cap::WordCap;

/// Steps from one byte to the next where no other number is asked for.
const GAP: u64 = 1000;

/// Steps from one tick to the next.
const TICK: u64 = 100;

/// The bytes of the file `keys`, or none where no file is named.
fn keys_of<'a, F: Folder>(
    alloc: Global,
    folder: &F,
    keys: Option<&'a str>,
) -> Result<Vec<u8>, ProgramFault<'a>>
    ensures ok { IfOk result (λ read. AreKeys keys.entry (F.files folder.now) read.items) }
    ensures err { IfErr result (λ fault. IsSomeAnd keys.entry (λ keys. IsTextFault keys.now (F.files folder.now) fault)) }
{
    match keys {
        Some(name) => read_text(alloc, folder, name),
        None => Ok(Vec::new(alloc)),
    }
}

/// The schedule of a session, if a file of input, a gap or a tick is asked for.
fn schedule_asked(is_typed: bool, gap: Option<u64>, tick: Option<u64>) -> Option<Schedule>
    requires { IfSome gap (λ gap. 1 ≤ gap) }
    ensures value { result ≡ schedule_asked is_typed gap tick }
    ensures gap { IfSome result (λ schedule. 1 ≤ schedule.gap) }
{
    if is_typed || gap.is_some() || tick.is_some() {
        let steps = u64::MAX;
        let gap = gap.unwrap_or(GAP);
        let tick = tick.unwrap_or(TICK);
        return Some(Schedule { steps, gap, tick });
    }
    None
}

/// The fault of a conversation that was cut short.
fn cut_short<'a>(fault: TalkFault) -> ProgramFault<'a>
    ensures { IsTalkFault result }
{
    match fault {
        TalkFault::Read => ProgramFault::Input,
        TalkFault::Write => ProgramFault::Write(DeviceFailed),
        TalkFault::Memory => ProgramFault::Memory,
    }
}

/// Talks with a session: commands from `input`, replies to `output`, which is handed back; whoever waits is told how far a command came.
fn talk_with<'a, I: Read + Drop, O: Write + Drop, P: Progress>(
    session: &mut Session<WordCap>,
    input: I,
    output: O,
    progress: &mut P,
) -> Result<O, ProgramFault<'a>>
    ensures ok { IfOk result (λ out. IfSome (I.remaining input) (λ typed. Appends (O.contents output) (O.contents out)
        (conversation (heard typed) session.old))) }
    ensures err { IfErr result IsTalkFault }
{
    let mut source = FromRead::new(input);
    let mut sink = Writing::new(output);
    match talk_told(session, &mut source, &mut sink, progress) {
        Ok(()) => Ok(sink.into_inner()),
        Err(fault) => Err(cut_short(fault)),
    }
}

/// Debugs an image: commands from `input`, which may name the labels of a table, replies to `output`, which is handed back.
fn debug_image<'a, I: Read + Drop, O: Write + Drop, P: Progress>(
    alloc: Global,
    image: Image,
    table: Symbols,
    schedule: Option<Schedule>,
    keys: Vec<u8>,
    input: I,
    output: O,
    progress: &mut P,
) -> Result<O, ProgramFault<'a>>
    requires { IfSome schedule (λ schedule. 1 ≤ schedule.gap) }
    ensures ok { IfOk result (λ out. IfSome (I.remaining input) (λ typed. Appends (O.contents output) (O.contents out)
        (conversation (heard typed) (session_of_image image table schedule keys.items)))) }
    ensures err { IfErr result IsTalkFault }
{
    let machine: ProgramMachine = Machine::new(alloc, &image)?;
    let mut session = Session::with_past(alloc, machine, image, table, schedule, keys);
    talk_with(&mut session, input, output, progress)
}

/// Debugs the program of a file: commands from `input`, which may name the labels of the file `symbols` if one is named or else of the
/// text if it is one, replies to `output`, which is handed back. After addresses of instructions stand the lines of the file `lines`, if
/// one is named, or else of the text.
///
/// Where a file `keys`, a gap or a tick is given, the session has the schedule of a run with these; what isn't given is as of `run`: no
/// input, a gap of 1000, a tick of 100.
pub fn debug_file<'a, F: Folder, I: Read + Drop, O: Write + Drop>(
    alloc: Global,
    folder: &F,
    name: &'a str,
    symbols: Option<&'a str>,
    lines: Option<&'a str>,
    keys: Option<&'a str>,
    gap: Option<u64>,
    tick: Option<u64>,
    input: I,
    output: O,
) -> Result<O, ProgramFault<'a>>
    requires { IfSome gap (λ gap. 1 ≤ gap) }
    ensures ok { IfOk result (λ out. DebugsFile (F.files folder.now) name.entry.now symbols.entry lines.entry keys.entry gap tick
        (I.remaining input) (O.contents output) (O.contents out)) }
    ensures err { IfErr result (FailsToDebug (F.files folder.now) name.entry.now symbols.entry lines.entry keys.entry) }
{
    let program = load_program(alloc, folder, name, symbols, lines)?;
    let LoadedProgram { image, table } = program;
    let schedule = schedule_asked(keys.is_some(), gap, tick);
    let typed = keys_of(alloc, folder, keys)?;
    let mut waiting = folder.waiting(false);
    debug_image(
        alloc,
        image,
        table,
        schedule,
        typed,
        input,
        output,
        &mut waiting,
    )
}
