//! Whole conversations.
ghost use Rattle.std.specs.Prelude.{◌≡◌, ◌≢◌, ◌-◌, ◌^◌, ◌<◌, [], ◌∷◌, ◌++◌, take, None, MatchOption, IfOk, IfErr, OnOk, OnErr, IfSome};
ghost use Rattle.std.specs.Io.KnownBytes.{Appends, Consumes, Keeps, IsAtEnd};
ghost use Rattle.image.specs.Devices.{AppendsBeginning};
ghost use Rattle.debug_commands.specs.declared.fault.DebugFault.TheVariants.{B4};
ghost use Rattle.debugger.specs.declared.fault.TalkFault.TheVariants.{Read, Write};
ghost use Rattle.debugger.specs.Reply.{state_after};
ghost use Rattle.debugger.specs.Conversation.{fault_text, reply_to, is_last};
ghost use Rattle.debugger.specs.Standing.{standing_with};
ghost use Rattle.debugger.specs.Talk.{IsTold, LeavesOff, CountsReads, CountsWrites};
ghost use Rattle.debugger.specs.Heard.{FailsToRefuse, FailsToReply, Hears};

use crate::fault::TalkFault;
use crate::reply::Reply;
use crate::session::Session;
use arrayvec::ArrayVec;
use debug_commands::DebugFault;
use image::{Sink, Source, write_all};
use schedules::{Nobody, Progress};
use word_cap::WordCap;

/// The most bytes of a line that are kept: a longer line is refused for its length, as its beginning is.
const MOST_KEPT: usize = 256;

/// The next byte, or none at the end.
fn next_byte<R: Source>(source: &mut R) -> Result<Option<u8>, TalkFault>
    requires { R.failed source.old < 2 ^ 64 - 1 }
    ensures ok { IfOk result (λ next. MatchOption next
        (Consumes (R.left source.old) (R.left source.new) [] × IsAtEnd (R.left source.new))
        (λ byte. Consumes (R.left source.old) (R.left source.new) (byte ∷ []))) }
    ensures err { OnErr result (Keeps (R.left source.old) (R.left source.new)) }
    ensures fault { IfErr result (λ fault. fault ≡ Read) }
    ensures count { CountsReads (R.failed source.old) (R.failed source.new) result }
{
    let mut one = [0];
    match source.read(&mut one) {
        Err(_) => Err(TalkFault::Read),
        Ok(0) => Ok(None),
        Ok(_) => Ok(Some(one[0])),
    }
}

/// Writes a text, or a beginning of it.
fn write<W: Sink>(sink: &mut W, text: &str) -> Result<(), TalkFault>
    requires { W.failed sink.old < 2 ^ 64 - 1 }
    ensures ok { OnOk result (Appends (W.held sink.old) (W.held sink.new) text.now) }
    ensures err { OnErr result (AppendsBeginning (W.held sink.old) (W.held sink.new) text.now) }
    ensures fault { IfErr result (λ fault. fault ≡ Write) }
    ensures count { CountsWrites (W.failed sink.old) (W.failed sink.new) result }
{
    match write_all(sink, text.as_bytes()) {
        Ok(()) => Ok(()),
        Err(_) => Err(TalkFault::Write),
    }
}

/// Writes what a refusal prints. A refusal for lack of memory prints nothing, and is a fault of the conversation.
fn write_refusal<W: Sink>(sink: &mut W, fault: DebugFault) -> Result<(), TalkFault>
    requires { W.failed sink.old < 2 ^ 64 - 1 }
    ensures ok { OnOk result (Appends (W.held sink.old) (W.held sink.new) (fault_text fault)) }
    ensures kind { OnOk result (fault ≢ B4) }
    ensures err { IfErr result (λ cut. FailsToRefuse cut fault (W.held sink.old) (W.held sink.new)) }
    ensures count { CountsWrites (W.failed sink.old) (W.failed sink.new) result }
{
    match fault {
        DebugFault::B1 => write(sink, "fault B1\n"),
        DebugFault::B2 => write(sink, "fault B2\n"),
        DebugFault::B3 => write(sink, "fault B3\n"),
        DebugFault::B4 => Err(TalkFault::Memory),
    }
}

/// Does what a line asks for, writes its reply, and answers whether it ends the conversation.
fn answer_line<W: Sink, P: Progress>(
    session: &mut Session<WordCap>,
    sink: &mut W,
    line: &[u8],
    progress: &mut P,
) -> Result<bool, TalkFault>
    requires { W.failed sink.old < 2 ^ 64 - 1 }
    ensures last { IfOk result (λ last. last ≡ is_last line.now session.old) }
    ensures state { OnOk result (session.new ≡ state_after line.now session.old) }
    ensures text { OnOk result (Appends (W.held sink.old) (W.held sink.new) (reply_to line.now session.old)) }
    ensures err { IfErr result (λ fault. FailsToReply fault line.now
        (standing_with session.old None (W.held sink.old)) (standing_with session.new None (W.held sink.new))) }
    ensures count { CountsWrites (W.failed sink.old) (W.failed sink.new) result }
{
    match session.command_bytes(line, progress) {
        Ok(Reply::Quit) => Ok(true),
        Ok(Reply::Text(text)) => {
            write(sink, text.as_str())?;
            Ok(false)
        }
        Err(fault) => {
            write_refusal(sink, fault)?;
            Ok(false)
        }
    }
}

/// Keeps a byte of a line, if there is room for it.
fn keep(line: &mut ArrayVec<u8, MOST_KEPT>, byte: u8)
    ensures { line.new.items ≡ take 256 (line.old.items ++ byte ∷ []) }
{
    if !line.is_full() {
        line.push(byte);
    }
}

/// Answers each line that ends with a line feed, up to the end of the input or the line that ends the conversation, and answers
/// whether such a line came. `line` is empty before, and holds the last line's beginning after.
fn hear<R: Source, W: Sink, P: Progress>(
    session: &mut Session<WordCap>,
    source: &mut R,
    sink: &mut W,
    line: &mut ArrayVec<u8, MOST_KEPT>,
    progress: &mut P,
) -> Result<bool, TalkFault>
    requires source { R.failed source.old < 2 ^ 64 - 1 }
    requires sink { W.failed sink.old < 2 ^ 64 - 1 }
    requires line { line.old.items ≡ [] }
    ensures ok { IfOk result (λ is_over. Hears is_over line.new.items
        (standing_with session.old (R.left source.old) (W.held sink.old))
        (standing_with session.new (R.left source.new) (W.held sink.new))) }
    ensures err { IfErr result (λ fault. LeavesOff fault
        (standing_with session.old (R.left source.old) (W.held sink.old))
        (standing_with session.new (R.left source.new) (W.held sink.new))) }
    ensures reads { CountsReads (R.failed source.old) (R.failed source.new) result }
    ensures writes { CountsWrites (W.failed sink.old) (W.failed sink.new) result }
{
    for _ in 0..u64::MAX {
        let Some(byte) = next_byte(source)? else {
            return Ok(false);
        };
        if byte == b'\n' {
            if answer_line(session, sink, line.as_slice(), progress)? {
                return Ok(true);
            }
            line.clear();
        } else {
            keep(line, byte);
        }
    }
    Ok(false)
}

/// Answers each line of the source: its reply, or `fault ` with the code of its refusal.
///
/// Reads one byte at a time. Lines end with a line feed; the last one may stand without it if it is not empty. Ends after the
/// line feed of `quit`, which is answered with nothing, at the end of the input, or after `2^64 - 1` bytes as at its end.
///
/// `Read`, a call of the source failed: the replies to the lines before are written, and the session stands after those lines.
/// `Write`, a call of the sink failed: a beginning of the text is written, and the session stands after the command whose reply
/// was cut. `Memory`, there is no memory for a reply: as `Read`; the line's command is not done.
pub fn talk<R: Source, W: Sink>(
    session: &mut Session<WordCap>,
    source: &mut R,
    sink: &mut W,
) -> Result<(), TalkFault>
    requires source { R.failed source.old < 2 ^ 64 - 1 }
    requires sink { W.failed sink.old < 2 ^ 64 - 1 }
    ensures ok { OnOk result (IfSome (R.left source.old) (λ input. IsTold input
        (standing_with session.old (R.left source.old) (W.held sink.old))
        (standing_with session.new (R.left source.new) (W.held sink.new)))) }
    ensures err { IfErr result (λ fault. LeavesOff fault
        (standing_with session.old (R.left source.old) (W.held sink.old))
        (standing_with session.new (R.left source.new) (W.held sink.new))) }
    ensures reads { CountsReads (R.failed source.old) (R.failed source.new) result }
    ensures writes { CountsWrites (W.failed sink.old) (W.failed sink.new) result }
{
    talk_told(session, source, sink, &mut Nobody)
}

/// The same, and `progress` is told from time to time how many events a command gave or searched.
pub fn talk_told<R: Source, W: Sink, P: Progress>(
    session: &mut Session<WordCap>,
    source: &mut R,
    sink: &mut W,
    progress: &mut P,
) -> Result<(), TalkFault>
    requires source { R.failed source.old < 2 ^ 64 - 1 }
    requires sink { W.failed sink.old < 2 ^ 64 - 1 }
    ensures ok { OnOk result (IfSome (R.left source.old) (λ input. IsTold input
        (standing_with session.old (R.left source.old) (W.held sink.old))
        (standing_with session.new (R.left source.new) (W.held sink.new)))) }
    ensures err { IfErr result (λ fault. LeavesOff fault
        (standing_with session.old (R.left source.old) (W.held sink.old))
        (standing_with session.new (R.left source.new) (W.held sink.new))) }
    ensures reads { CountsReads (R.failed source.old) (R.failed source.new) result }
    ensures writes { CountsWrites (W.failed sink.old) (W.failed sink.new) result }
{
    let mut line = ArrayVec::new();
    let is_over = hear(session, source, sink, &mut line, progress)?;
    if !is_over && !line.is_empty() {
        answer_line(session, sink, line.as_slice(), progress)?;
    }
    Ok(())
}
