//! The table of the commands, and what is read off it: what `help` answers, and the command that a line writes.
ghost use Rattle.std.specs.Prelude.{◌≡◌, Err, IfOk};
ghost use Rattle.asm_lines.specs.Words.{words_of};
ghost use Rattle.debug_commands.specs.Command.{command_among, of_states};
ghost use Rattle.debug_commands.specs.declared.fault.DebugFault.TheVariants.{B1, B2};
ghost use Rattle.debug_commands.specs.Command as spec;
ghost use Rattle.debug_commands.specs.Limits.{IsWithinLimits};

use crate::command::{Command, Events, Recall, SetStops, Stop, View};
use crate::fault::DebugFault;
use crate::operands::{
    address_and_number_or, bytes_and_horizon, distance_back, holder_and_number, horizon,
    number_and_horizon, number_or, one_address, one_holder, one_number, one_register,
    some_bytes_and_horizon, watched,
};
use asm_lines::{Class, run_length, split_word};
use reach::{Horizon, May};
use symbols::Symbols;

/// The most bytes that a line has.
const MOST_BYTES: usize = 255;

/// The most events that a command's number says.
const MOST_EVENTS: u64 = 1_000_000;

/// The most steps of a command that goes on up to a stop, where it has no number, and the most that its number says.
const STEPS_UNASKED: u64 = 1_000_000_000;

const MOST_GONE: u64 = 1_000_000_000_000;

/// How many bytes a command shows where it has no number, and at most.
const BYTES_UNASKED: u64 = 16;

const MOST_SHOWN: u64 = 4096;

/// How many words a command disassembles where it has no number, and at most.
const WORDS_UNASKED: u64 = 8;

const MOST_WORDS: u64 = 1024;

/// The most bytes that a question is about, and the most events that are taken back: all that a number of 64 bits counts.
const MOST_ASKED: u64 = u64::MAX;

/// The greatest object type, of 18 bits.
const MOST_TYPE: u64 = 0x3ffff;

// The table. Of each command: its name, its operands and an example as `help` shows them, how operands are read, and the command of what
// they say. It is in two parts, for proving a long one costs more: first the commands that give events, take them back, or ask about them.
macro_rules! of_events {
    ($reading:ident $($what:tt)*) => {
        $reading! {
            $($what)*;
            "step" (" N", "step 100") (number 1 MOST_EVENTS) n => Command::Gives(Events::Steps(n));
            "tick" (" N", "tick 1") (number 1 MOST_EVENTS) n => Command::Gives(Events::Ticks(n));
            "byte" (" B", "byte 0x41") (number 0 255) n => Command::Gives(Events::Byte(n as u8));
            "until" (" ADDR [N]", "until 0x80000010") (place STEPS_UNASKED 1 MOST_EVENTS)
                p => Command::Gives(Events::Until { stop: Stop::Address(p.0), most: p.1 });
            "trap" (" [N]", "trap") (number_if STEPS_UNASKED 1 MOST_EVENTS)
                n => Command::Gives(Events::Until { stop: Stop::Trap, most: n });
            "go" (" [N]", "go 5000000") (number_if STEPS_UNASKED 1 MOST_GONE) n => Command::Gives(Events::Go { most: n });
            "changed" (" R|ADDR N", "changed ca0 1000") (holder_and_number MOST_EVENTS)
                p => Command::Gives(Events::Changed { place: p.0, most: p.1 });
            "back" (" N|to stop", "back to stop") (distance_back MOST_ASKED) it => Command::Back(it);
            "ago" ("", "ago") (nothing) n => Command::Recalls(Recall::Ago);
            "origin" (" R|ADDR", "origin ca0") (holder) p => Command::Recalls(Recall::Origin(p));
            "lost" (" R|ADDR", "lost ca0") (holder) p => Command::Recalls(Recall::Lost(p));
            "calls" ("", "calls") (nothing) n => Command::Recalls(Recall::Calls);
        }
    };
}

// The commands of stops, and those that show.
macro_rules! of_states {
    ($reading:ident $($what:tt)*) => {
        $reading! {
            $($what)*;
            "stop" (" at ADDR|changed R|changed ADDR [LEN]|trap|off", "stop at 0x80000010") (verb stop_of) n => ();
            "stops" ("", "stops") (nothing) n => Command::Shows(View::Stops);
            "reg" (" R", "reg ca0") (register) v => Command::Shows(v);
            "regs" ("", "regs") (nothing) n => Command::Shows(View::Registers);
            "scr" ("", "scr") (nothing) n => Command::Shows(View::SpecialRegisters);
            "csr" ("", "csr") (nothing) n => Command::Shows(View::ControlRegisters);
            "caps" ("", "caps") (nothing) n => Command::Shows(View::Capabilities);
            "mem" (" ADDR [LEN]", "mem 0x80000000 64") (place BYTES_UNASKED 1 MOST_SHOWN)
                p => Command::Shows(View::Memory { address: p.0, count: p.1 });
            "dis" (" [ADDR [N]]", "dis 0x80000000 4") (verb dis_of) n => ();
            "why" (" [json]", "why json") (verb why_of) n => ();
            "reach" (" [members|dot|json|doors]", "reach doors") (verb reach_of) n => ();
            "may" (" store|load|execute|learn ADDR LEN [through doors]\n\
                may keep [ADDR LEN] [through doors]\n\
                may send|halt|system|timer [through doors]\n\
                may hold TYPE [through doors]", "may store 0x80000000 8")
                (verb may_of) n => ();
            "help" (" [COMMAND|B1|B2|B3|B4]", "help stop") (verb help_on) n => ();
            "quit" ("", "quit") (nothing) n => Command::Quit;
        }
    };
}

// What may follow `why`, `reach`, `may`, `stop` and `help`: a word, and then operands as a command has them.
macro_rules! reasons {
    ($reading:ident $($what:tt)*) => {
        $reading! {
            $($what)*;
            "json" () (nothing) n => Command::Shows(View::WhyObjects);
        }
    };
}

macro_rules! reaches {
    ($reading:ident $($what:tt)*) => {
        $reading! {
            $($what)*;
            "members" () (nothing) n => Command::Shows(View::ReachMembers);
            "dot" () (nothing) n => Command::Shows(View::ReachGraph);
            "json" () (nothing) n => Command::Shows(View::ReachObjects);
            "doors" () (nothing) n => Command::Shows(View::Reach(Horizon::Turn));
        }
    };
}

macro_rules! questions {
    ($reading:ident $($what:tt)*) => {
        $reading! {
            $($what)*;
            "store" () (question_of_bytes MOST_ASKED) p => May::Store { address: p.0, count: p.1 };
            "load" () (question_of_bytes MOST_ASKED) p => May::Load { address: p.0, count: p.1 };
            "execute" () (question_of_bytes MOST_ASKED) p => May::Execute { address: p.0, count: p.1 };
            "learn" () (question_of_bytes MOST_ASKED) p => May::Learn { address: p.0, count: p.1 };
            "keep" () (question_of_some_bytes MOST_ASKED) p => May::Keep { address: p.0, count: p.1 };
            "send" () (question) n => May::Send;
            "halt" () (question) n => May::Halt;
            "system" () (question) n => May::System;
            "timer" () (question) n => May::Timer;
            "hold" () (question_of_number 0 MOST_TYPE) n => May::Hold(n);
        }
    };
}

macro_rules! settings {
    ($reading:ident $($what:tt)*) => {
        $reading! {
            $($what)*;
            "at" () (address) a => Command::Sets(SetStops::Add(Stop::Address(a)));
            "changed" () (watched MOST_SHOWN) w => Command::Sets(SetStops::Add(Stop::Changed(w)));
            "trap" () (nothing) n => Command::Sets(SetStops::Add(Stop::Trap));
            "off" () (nothing) n => Command::Sets(SetStops::Clear);
        }
    };
}

macro_rules! explained {
    ($reading:ident $($what:tt)*) => {
        $reading! {
            $($what)*;
            "B1" () (nothing) n => Command::Shows(View::Code(DebugFault::B1));
            "B2" () (nothing) n => Command::Shows(View::Code(DebugFault::B2));
            "B3" () (nothing) n => Command::Shows(View::Code(DebugFault::B3));
            "B4" () (nothing) n => Command::Shows(View::Code(DebugFault::B4));
        }
    };
}

// The lines of all commands, as `help` shows them: those of the first part, then those of the second.
macro_rules! help_of {
    (; $($row:tt)*) => { of_states!(help_of_all $($row)*) };
}

macro_rules! help_of_all {
    ($($name:literal ($usage:literal, $example:literal) $form:tt $said:ident => $made:expr;)*;
        $($last:literal ($its_usage:literal, $its_example:literal) $its_form:tt $it:ident => $its_command:expr;)*) => {
        concat!($($name, $usage, "\n",)* $($last, $its_usage, "\n"),*)
    };
}

// The command of what operands say, or B2.
macro_rules! made_of {
    ((number $low:literal $high:tt) $said:ident $made:expr, $symbols:ident $operands:ident) => {{
        let $said = one_number($operands, $low, $high)?;
        Ok($made)
    }};
    ((number_if $otherwise:tt $low:literal $high:tt) $said:ident $made:expr, $symbols:ident $operands:ident) => {{
        let $said = number_or($operands, $otherwise, $low, $high)?;
        Ok($made)
    }};
    ((place $otherwise:tt $multiple:literal $high:tt) $said:ident $made:expr, $symbols:ident $operands:ident) => {{
        let $said = address_and_number_or($symbols, $operands, $otherwise, $multiple, $high)?;
        Ok($made)
    }};
    ((address) $said:ident $made:expr, $symbols:ident $operands:ident) => {{
        let $said = one_address($symbols, $operands)?;
        Ok($made)
    }};
    ((register) $said:ident $made:expr, $symbols:ident $operands:ident) => {{
        let $said = one_register($operands)?;
        Ok($made)
    }};
    ((holder) $said:ident $made:expr, $symbols:ident $operands:ident) => {{
        let $said = one_holder($symbols, $operands)?;
        Ok($made)
    }};
    ((holder_and_number $high:tt) $said:ident $made:expr, $symbols:ident $operands:ident) => {{
        let $said = holder_and_number($symbols, $operands, $high)?;
        Ok($made)
    }};
    ((watched $high:tt) $said:ident $made:expr, $symbols:ident $operands:ident) => {{
        let $said = watched($symbols, $operands, $high)?;
        Ok($made)
    }};
    ((distance_back $high:tt) $said:ident $made:expr, $symbols:ident $operands:ident) => {{
        let $said = distance_back($operands, $high)?;
        Ok($made)
    }};
    ((verb $read:ident) $said:ident $made:expr, $symbols:ident $operands:ident) => { $read($symbols, $operands) };
    ((question) $said:ident $made:expr, $symbols:ident $operands:ident) => {{
        let until = horizon($operands)?;
        Ok(Command::Shows(View::May($made, until)))
    }};
    ((question_of_number $low:literal $high:tt) $said:ident $made:expr, $symbols:ident $operands:ident) => {{
        let ($said, until) = number_and_horizon($operands, $low, $high)?;
        Ok(Command::Shows(View::May($made, until)))
    }};
    ((question_of_bytes $high:tt) $said:ident $made:expr, $symbols:ident $operands:ident) => {{
        let ($said, until) = bytes_and_horizon($symbols, $operands, $high)?;
        Ok(Command::Shows(View::May($made, until)))
    }};
    ((question_of_some_bytes $high:tt) $said:ident $made:expr, $symbols:ident $operands:ident) => {{
        let ($said, until) = some_bytes_and_horizon($symbols, $operands, $high)?;
        Ok(Command::Shows(View::May($made, until)))
    }};
    ((nothing) $said:ident $made:expr, $symbols:ident $operands:ident) => { alone($operands, $made) };
}

// The command of the line that has this name, or else what is said of no such line.
macro_rules! named {
    ($sought:ident $symbols:ident $operands:ident $otherwise:tt; $($name:literal $shown:tt $form:tt $said:ident => $made:expr;)*) => {{
        $(if $sought == $name.as_bytes() {
            return made_of!($form $said $made, $symbols $operands);
        })*
        $otherwise
    }};
}

// The number of the line that has this name, counted from one on, or else what is said of no such line.
macro_rules! numbered {
    ($sought:ident $first:literal $otherwise:tt; $($name:literal $shown:tt $form:tt $said:ident => $made:expr;)*) => {{
        let mut line = $first;
        $(if $sought == $name.as_bytes() {
            return Some(line);
        }
        line += 1;)*
        $otherwise
    }};
}

// What `help` answers of the line of this number, where they are counted from one on, or else what is said of no such line.
macro_rules! about {
    ($sought:ident $first:literal $otherwise:tt;
        $($name:literal ($usage:literal, $example:literal) $form:tt $said:ident => $made:expr;)*) => {{
        let mut line = $first;
        $(if $sought == line {
            return concat!($name, $usage, "\nfor example: ", $example, "\n");
        }
        line += 1;)*
        $otherwise
    }};
}

const HELP: &str = of_events!(help_of);

/// What `help` answers: the commands with their operands, one a line, each ended by a line feed.
pub fn help_text() -> &'static str
    ensures { result.now ≡ spec.help_text }
{
    HELP
}

/// What `help` answers of the line of this number, if it is one of stops or of what is shown.
fn about_states(sought: u8) -> &'static str
    ensures { result.now ≡ spec.about_among 12 (of_states spec.help_on) sought }
{
    of_states!(about sought 12 (""))
}

/// What `help` answers of the command whose line in the table has this number, counted from 0: its operands, and an example; nothing
/// where there is no such line.
#[tactic(auto, unfolding(crate::specs::Command::about_line))]
pub fn about_line(sought: u8) -> &'static str
    ensures { result.now ≡ spec.about_line sought }
{
    of_events!(about sought 0 (about_states(sought)))
}

/// The number of the line of stops or of what is shown that has this name.
fn state_line_named(name: &[u8]) -> Option<u8>
    ensures { result ≡ spec.line_named 12 (of_states (λ _ _. Err B2)) name.now }
{
    of_states!(numbered name 12 (None))
}

/// The number of the line of the table that has this name, counted from 0.
fn line_named(name: &[u8]) -> Option<u8>
    ensures { result ≡ spec.named_line name.now }
{
    of_events!(numbered name 0 (state_line_named(name)))
}

/// A command without operands, or B2.
fn alone(operands: &[u8], command: Command) -> Result<Command, DebugFault>
    requires { IsWithinLimits command }
    ensures value { result ≡ spec.alone command (words_of operands.now) }
    ensures limits { IfOk result IsWithinLimits }
{
    match split_word(operands) {
        Some(_) => Err(DebugFault::B2),
        None => Ok(command),
    }
}

/// The command of what follows `why`, over a table of labels, or B2.
fn why_of(symbols: &Symbols, operands: &[u8]) -> Result<Command, DebugFault>
    ensures value { result ≡ spec.why_of symbols.now (words_of operands.now) }
    ensures limits { IfOk result IsWithinLimits }
{
    let Some((word, rest)) = split_word(operands) else {
        return Ok(Command::Shows(View::Why));
    };
    reasons!(named word symbols rest (Err(DebugFault::B2)))
}

/// The command of what follows `reach`, over a table of labels, or B2.
fn reach_of(symbols: &Symbols, operands: &[u8]) -> Result<Command, DebugFault>
    ensures value { result ≡ spec.reach_of symbols.now (words_of operands.now) }
    ensures limits { IfOk result IsWithinLimits }
{
    let Some((word, rest)) = split_word(operands) else {
        return Ok(Command::Shows(View::Reach(Horizon::Stretch)));
    };
    reaches!(named word symbols rest (Err(DebugFault::B2)))
}

/// The command of what follows `may`, over a table of labels, or B2.
fn may_of(symbols: &Symbols, operands: &[u8]) -> Result<Command, DebugFault>
    ensures value { result ≡ spec.may_of symbols.now (words_of operands.now) }
    ensures limits { IfOk result IsWithinLimits }
{
    let Some((word, rest)) = split_word(operands) else {
        return Err(DebugFault::B2);
    };
    questions!(named word symbols rest (Err(DebugFault::B2)))
}

/// The command of what follows `stop`, over a table of labels, or B2.
fn stop_of(symbols: &Symbols, operands: &[u8]) -> Result<Command, DebugFault>
    ensures value { result ≡ spec.stop_of symbols.now (words_of operands.now) }
    ensures limits { IfOk result IsWithinLimits }
{
    let Some((word, rest)) = split_word(operands) else {
        return Err(DebugFault::B2);
    };
    settings!(named word symbols rest (Err(DebugFault::B2)))
}

/// The command of what follows `dis`, over a table of labels, or B2.
fn dis_of(symbols: &Symbols, operands: &[u8]) -> Result<Command, DebugFault>
    ensures value { result ≡ spec.dis_of symbols.now (words_of operands.now) }
    ensures limits { IfOk result IsWithinLimits }
{
    if split_word(operands).is_none() {
        return Ok(Command::Shows(View::WordsAtPcc(WORDS_UNASKED)));
    }
    let (address, count) = address_and_number_or(symbols, operands, WORDS_UNASKED, 4, MOST_WORDS)?;
    Ok(Command::Shows(View::Words { address, count }))
}

/// The command of what follows `help`, over a table of labels, or B2.
fn help_on(symbols: &Symbols, operands: &[u8]) -> Result<Command, DebugFault>
    ensures value { result ≡ spec.help_on symbols.now (words_of operands.now) }
    ensures limits { IfOk result IsWithinLimits }
{
    let Some((word, rest)) = split_word(operands) else {
        return Ok(Command::Shows(View::Help));
    };
    if let Some(line) = line_named(word) {
        return alone(rest, Command::Shows(View::HelpOn(line)));
    }
    explained!(named word symbols rest (Err(DebugFault::B2)))
}

/// The command of stops or of what is shown that has this name: B1 where none has it, and else B2 where the operands are not its own.
fn state_command(symbols: &Symbols, name: &[u8], operands: &[u8]) -> Result<Command, DebugFault>
    ensures value { result ≡ command_among B1 symbols.now (of_states spec.help_on) name.now (words_of operands.now) }
    ensures limits { IfOk result IsWithinLimits }
{
    of_states!(named name symbols operands (Err(DebugFault::B1)))
}

/// The command of a name and operands, over a table of labels: B1 where no command has that name, and else B2 where the operands are
/// not its own.
fn command_named(symbols: &Symbols, name: &[u8], operands: &[u8]) -> Result<Command, DebugFault>
    ensures value { result ≡ spec.command_named symbols.now name.now (words_of operands.now) }
    ensures limits { IfOk result IsWithinLimits }
{
    of_events!(named name symbols operands (state_command(symbols, name, operands)))
}

/// Whether a first word begins a comment.
fn is_comment(word: &[u8]) -> bool
    ensures { result ≡ spec.is_comment word.now }
{
    word.first() == Some(&b'#')
}

/// The command that a line writes, over a table of labels: B2 where the line has more than 255 bytes or one of 128 or more; else one that
/// shows nothing where its first word begins with `#`, B1 where that is no command's name or there is none, and else B2 where the operands
/// are not that command's.
#[tactic(auto, unfolding(crate::specs::Command::command_of))]
pub fn command_of(symbols: &Symbols, line: &[u8]) -> Result<Command, DebugFault>
    ensures value { result ≡ spec.command_of symbols.now line.now }
    ensures limits { IfOk result IsWithinLimits }
{
    if line.len() > MOST_BYTES || run_length(line, Class::Ascii) < line.len() {
        return Err(DebugFault::B2);
    }
    match split_word(line) {
        Some((name, operands)) => {
            if is_comment(name) {
                return Ok(Command::Shows(View::Nothing));
            }
            command_named(symbols, name, operands)
        }
        None => Err(DebugFault::B1),
    }
}
