//! What the next step will do, and texts.

ghost use Rattle.std.specs.Prelude.{◌≡◌, ◌⊎◌, ◌≤◌, ◌<◌, [], false, None, IfSome, IfOk, IfErr, length, take, string_bytes};
ghost use Rattle.disassembler.specs.Shown.{shown_word};
ghost use Rattle.explain.specs.WhyText.{why_text};
ghost use Rattle.steps.specs.declared.event.Event.TheVariants.{Step};
ghost use Rattle.steps.specs.Ends.{why_of};
ghost use Rattle.steps.specs.Event.{outcome};
ghost use Rattle.symbols.specs.Symbols.{symbols_of};
ghost use Rattle.cherisim_c.specs.Refusals.{IsLabelsRefusal, IsRefusal};
ghost use Rattle.cherisim_c.specs.Status.{no_machine, no_memory, full};
ghost use Rattle.cherisim_c.specs.Running.{end_code, code_or_zero, step_line};

use crate::handle::Handle;
use crate::policed::labels_of;
use crate::refusal::Refusal;
use crate::running::code_of_end;
use crate::status::{FULL, NO_MACHINE, NO_MEMORY, OK};
use disassembler::disassemble;
use explain::{Line, put_why, trace_line};
use machine::{Event, Machine};
use std::alloc::{AllocError, Global};
use symbols::Symbols;
use word_cap::WordCap;

/// Why the next step would end a stretch, or 0 where it would not.
#[unsafe(no_mangle)]
pub extern "C" fn cherisim_next_ends(alloc: Global, machine: &mut Handle, why: &mut u32) -> u32
    ensures state { machine.new.machine ≡ machine.old.machine }
    ensures closed { machine.old.machine ≡ None → result ≡ no_machine }
    ensures ok { IfSome machine.old.machine (λ s. (result ≡ 0) × (why.new ≡ code_or_zero (end_code false (why_of (outcome Step s))))) }
    ensures same { 1 ≤ result → why.new ≡ why.old }
{
    match machine.take(alloc) {
        Some(held) => {
            *why = code_of_end(held.next_ends(Event::Step), false).unwrap_or(0);
            machine.put(held);
            OK
        }
        None => NO_MACHINE,
    }
}

/// What the next step will do, and why, as a text.
fn why_of(alloc: Global, machine: &Machine<WordCap>) -> Result<String, AllocError>
    ensures { IfOk result (λ text. string_bytes text ≡ why_text [] machine.now) }
{
    let mut text = String::new(alloc);
    put_why(&mut text, &Symbols::new(alloc), machine.hart())?;
    Ok(text)
}

/// Copies a text into a buffer that is long enough, and says how long it is.
pub(crate) fn copy(text: &str, out: &mut [u8], size: &mut u64) -> u32
    ensures only { (result ≡ 0) ⊎ (result ≡ full) }
    ensures size { size.new ≡ length text.now }
    ensures ok { result ≡ 0 → take size.new out.new ≡ text.now }
    ensures fits { result ≡ 0 → size.new ≤ length out.new }
    ensures full { result ≡ full → (length out.old < size.new) × (out.new ≡ out.old) }
{
    let bytes = text.as_bytes();
    *size = bytes.len() as u64;
    if bytes.len() <= out.len() {
        out[..bytes.len()].copy_from_slice(bytes);
        OK
    } else {
        FULL
    }
}

/// What the next step will do, and why: so many bytes at the beginning of `text`. Where it is too short, its length is what it takes.
#[unsafe(no_mangle)]
pub extern "C" fn cherisim_why(
    alloc: Global,
    machine: &mut Handle,
    text: &mut [u8],
    size: &mut u64,
) -> u32
    ensures state { machine.new.machine ≡ machine.old.machine }
    ensures closed { machine.old.machine ≡ None → (result ≡ no_machine) × (text.new ≡ text.old) × (size.new ≡ size.old) }
    ensures memory { result ≡ no_memory → (text.new ≡ text.old) × (size.new ≡ size.old) }
    ensures ok { IfSome machine.old.machine (λ s. result ≡ 0
        → (size.new ≡ length (why_text [] s)) × (take size.new text.new ≡ why_text [] s)) }
    ensures full { IfSome machine.old.machine (λ s. result ≡ full
        → (size.new ≡ length (why_text [] s)) × (length text.old < size.new) × (text.new ≡ text.old)) }
    ensures only { IfSome machine.old.machine (λ s. (result ≡ 0) ⊎ ((result ≡ full) ⊎ (result ≡ no_memory))) }
{
    match machine.take(alloc) {
        Some(held) => {
            let told = why_of(alloc, &held);
            machine.put(held);
            match told {
                Ok(told) => copy(told.as_str(), text, size),
                Err(_) => NO_MEMORY,
            }
        }
        None => NO_MACHINE,
    }
}

/// The line of a trace for the next step, as the step of a number; of a halted machine it is empty.
fn line_of(symbols: &Symbols, machine: &Machine<WordCap>, number: u64) -> Line
    ensures { result.bytes ≡ step_line symbols.now number machine.now }
{
    if machine.halted().is_some() {
        Line::new()
    } else {
        let planned = machine.next();
        trace_line(symbols, number, machine.hart(), &planned)
    }
}

/// The same with the labels of a table.
fn labelled_line(
    alloc: Global,
    labels: &[u8],
    machine: &Machine<WordCap>,
    number: u64,
) -> Result<Line, Refusal>
    ensures ok { IfOk result (λ line. line.bytes ≡ step_line (symbols_of labels.now) number machine.now) }
    ensures err { IfErr result (IsLabelsRefusal labels.now) }
{
    let symbols = labels_of(alloc, labels)?;
    Ok(line_of(&symbols, machine, number))
}

/// The line of a trace for the next step, as the step of a number, with the labels of a table: so many bytes at the beginning of `text`.
/// Where it is too short, its length is what it takes. Of a halted machine it is empty. Where the table is refused, its faulty line is
/// written.
#[unsafe(no_mangle)]
pub extern "C" fn cherisim_trace(
    alloc: Global,
    machine: &mut Handle,
    labels: &[u8],
    number: u64,
    text: &mut [u8],
    size: &mut u64,
    line: &mut u64,
) -> u32
    ensures state { machine.new.machine ≡ machine.old.machine }
    ensures closed { machine.old.machine ≡ None → (result ≡ no_machine) × (line.new ≡ line.old) }
    ensures same { 1 ≤ result → result < full → (text.new ≡ text.old) × (size.new ≡ size.old) }
    ensures ok { IfSome machine.old.machine (λ s. result ≡ 0 → (size.new ≡ length (step_line (symbols_of labels.now) number s))
        × (take size.new text.new ≡ step_line (symbols_of labels.now) number s)) }
    ensures full { IfSome machine.old.machine (λ s. result ≡ full → (size.new ≡ length (step_line (symbols_of labels.now) number s))
        × (length text.old < size.new) × (text.new ≡ text.old)) }
    ensures only { IfSome machine.old.machine (λ s. (result ≡ 0) ⊎ ((result ≡ full)
        ⊎ IsRefusal (IsLabelsRefusal labels.now) line.new result)) }
    ensures no_line { (result ≡ 0) ⊎ (result ≡ full) → line.new ≡ line.old }
{
    match machine.take(alloc) {
        Some(held) => {
            let told = labelled_line(alloc, labels, &held, number);
            machine.put(held);
            match told {
                Ok(shown) => copy(shown.as_str(), text, size),
                Err(refusal) => refusal.report(line),
            }
        }
        None => NO_MACHINE,
    }
}

/// Writes the text of a word in a mode to the beginning of `text`, and answers how many bytes it has, at most 64.
#[unsafe(no_mangle)]
pub extern "C" fn cherisim_disassemble(word: u32, mode: bool, text: &mut [u8; 64]) -> usize
    ensures few { result ≤ 64 }
    ensures text { take result text.new ≡ shown_word mode word }
{
    let shown = disassemble(word, mode);
    let bytes = shown.as_str().as_bytes();
    text[..bytes.len()].copy_from_slice(bytes);
    bytes.len()
}
