//! How a run ended, for whoever called the program.

ghost use Rattle.std.specs.Prelude.{◌≡◌, ◌++◌, OnOk, IfOk, codes, decimal, false, string_bytes};
ghost use Rattle.cap_bounds.specs.CapValue.{value_address};
ghost use Rattle.steps.specs.State.{pc_of};
ghost use Rattle.steps.specs.Step.{step_effect, step_fetched};
ghost use Rattle.steps.specs.declared.effect.Effect.TheVariants.{Trap};
ghost use Rattle.symbols.specs.Labels.{labelled};
ghost use Rattle.hart.specs.Opening.{opening};
ghost use Rattle.machine.specs.Run.{run_after};
ghost use Rattle.sim_run.specs.Ending.{ending_lines, is_trapped, last_trap, since_line, trap_lines, trap_part, trap_words};
ghost use Rattle.schedules.specs.Schedule.{is_halted, scheduled, IsRunnable};
ghost use Rattle.sim_run.specs.Unhandled.{trap_left, Traps};
ghost use Rattle.sim_run.specs.Watched.{HasLines};
ghost use Rattle.sim_run.specs.Verdict.{status_of, verdict_line};

use crate::unhandled::trap_left;
use arrayvec::ArrayString;
use base::{Fault, csr, scr};
use cap_bounds::CapRep;
use explain::{put_failed, put_standing, trap_text};
use image::Image;
use machine::{End, Machine};
use schedules::Schedule;
use std::alloc::{AllocError, Global};
use steps::Fetched;
use symbols::{Symbols, labelled};
use texts::Piece::{Decimal, Text};
use texts::{append, text};

/// The status of a run that ended so, and the line for standard error, empty at status 0.
pub fn verdict(end: End) -> (u8, ArrayString<64>)
    ensures status { result.0 ≡ status_of end }
    ensures line { result.1.bytes ≡ verdict_line end }
{
    match end {
        End::Halted(0) => (0, ArrayString::new()),
        End::Halted(number) => (1, text(&[Text("cherisim: halted with "), Decimal(number)])),
        End::Running => (1, text(&[Text("cherisim: not halted")])),
    }
}

/// What mcause holds.
#[tactic(auto, unfolding(special_regs::specs::CsrValues::csr_value))]
pub(crate) fn mcause<C: CapRep>(machine: &Machine<C>) -> u64
    ensures { result ≡ machine.now.csrs.mcause }
{
    machine.csr(csr::MCAUSE)
}

/// What mtval holds.
#[tactic(auto, unfolding(special_regs::specs::CsrValues::csr_value))]
pub(crate) fn mtval<C: CapRep>(machine: &Machine<C>) -> u64
    ensures { result ≡ machine.now.csrs.mtval }
{
    machine.csr(csr::MTVAL)
}

/// MEPCC's address.
#[tactic(auto, unfolding(special_regs::specs::Scrs::scr_value))]
pub(crate) fn mepc<C: CapRep>(machine: &Machine<C>) -> u64
    ensures { result ≡ value_address machine.now.scrs.mepcc }
{
    machine.scr(scr::MEPCC).address()
}

/// MTCC's address.
#[tactic(auto, unfolding(special_regs::specs::Scrs::scr_value))]
pub(crate) fn mtvec<C: CapRep>(machine: &Machine<C>) -> u64
    ensures { result ≡ value_address machine.now.scrs.mtcc }
{
    machine.scr(scr::MTCC).address()
}

/// PCC's address.
#[tactic(auto, unfolding(special_regs::specs::Scrs::scr_value))]
pub(crate) fn pc<C: CapRep>(machine: &Machine<C>) -> u64
    ensures { result ≡ pc_of machine.now }
{
    machine.scr(scr::PCC).address()
}

/// Whether a trap was taken, by what mcause and mtval hold.
pub(crate) fn is_trapped(mcause: u64, mtval: u64) -> bool
    ensures { result ≡ is_trapped mcause mtval }
{
    !(mcause == 0 && mtval == 0)
}

/// A trap in words, and where it was taken, with the line of a source there, where it is known.
#[tactic(auto, unfolding(crate::specs::Ending::trap_part))]
fn trap_part(symbols: &Symbols, mcause: u64, mtval: u64, mepc: u64) -> ArrayString<720>
    ensures { result.bytes ≡ trap_part symbols.now mcause mtval mepc }
{
    let words = trap_text(mcause, mtval);
    let place = labelled(Some(symbols), mepc);
    let source = symbols.source_of(mepc);
    text(&[
        Text(words.as_str()),
        Text(", mepc "),
        Text(place.as_str()),
        Text(source.as_str()),
    ])
}

/// Appends the last trap to a text, where one was taken.
#[tactic(auto, unfolding(crate::specs::Ending::last_trap))]
fn append_last_trap<C: CapRep>(
    text: &mut String,
    symbols: &Symbols,
    machine: &Machine<C>,
) -> Result<(), AllocError>
    ensures { OnOk result (string_bytes text.new ≡ string_bytes text.old ++ last_trap symbols.now machine.now) }
{
    let mcause = mcause(machine);
    let mtval = mtval(machine);
    if is_trapped(mcause, mtval) {
        let part = trap_part(symbols, mcause, mtval, mepc(machine));
        append(text, &[Text("; last trap: "), Text(part.as_str())])
    } else {
        Ok(())
    }
}

/// Appends a trap, where it was taken and the number of its step to a text.
fn append_trap(
    text: &mut String,
    symbols: &Symbols,
    fault: Fault,
    mepc: u64,
    number: u64,
) -> Result<(), AllocError>
    ensures { OnOk result (string_bytes text.new ≡ string_bytes text.old
        ++ (trap_part symbols.now fault.mcause fault.mtval mepc ++ codes ", step " ++ decimal number ++ codes "\n")) }
{
    let part = trap_part(symbols, fault.mcause, fault.mtval, mepc);
    append(
        text,
        &[
            Text(part.as_str()),
            Text(", step "),
            Decimal(number),
            Text("\n"),
        ],
    )
}

/// Appends the trap of the next step, which was planned, to a text: with the step's number and, on a line of its own, the condition that
/// fails.
pub(crate) fn append_trap_words<C: CapRep>(
    text: &mut String,
    symbols: &Symbols,
    machine: &Machine<C>,
    number: u64,
    fetched: Fetched,
    fault: Fault,
) -> Result<(), AllocError>
    requires fetched { fetched ≡ step_fetched machine.now }
    requires running { is_halted machine.now ≡ false }
    requires traps { step_effect machine.now ≡ Trap fault }
    ensures { OnOk result (string_bytes text.new ≡ string_bytes text.old ++ trap_words symbols.now number machine.now) }
{
    append_trap(text, symbols, fault, pc(machine), number)?;
    put_failed(text, symbols, machine.hart(), fetched)
}

/// Appends how many steps since the last trap were traps of the fetch to a text.
#[tactic(auto, unfolding(crate::specs::Ending::since_line))]
pub(crate) fn append_since(text: &mut String, count: u64) -> Result<(), AllocError>
    ensures { OnOk result (string_bytes text.new ≡ string_bytes text.old ++ since_line count) }
{
    if count == 0 {
        return Ok(());
    }
    append(
        text,
        &[
            Text("  later traps at an entry that can't be fetched: "),
            Decimal(count),
            Text("\n"),
        ],
    )
}

/// Appends the traps that matter to a text: those lines, where the last step was a trap, or else the last that was taken.
fn append_trap_lines<C: CapRep>(
    text: &mut String,
    symbols: &Symbols,
    machine: &Machine<C>,
    lines: &Option<String>,
) -> Result<(), AllocError>
    ensures { OnOk result ((left : Traps) → HasLines symbols.now lines.now left machine.now
        → string_bytes text.new ≡ string_bytes text.old ++ trap_lines symbols.now left.first left.last machine.now) }
{
    match lines {
        Some(lines) => append(text, &[Text(lines)]),
        None => {
            append_last_trap(text, symbols, machine)?;
            append(text, &[Text("\n")])
        }
    }
}

/// The lines for standard error that say where a run of an image on a schedule ended: how many steps were done, where PCC is, and, of a
/// run that ended with a trap, the first that nothing handled, with its cause, what mtval says of it, the address where it was and the
/// condition that failed; the last that followed steps that were none, if that is another; and how often the fetch of the trap's entry
/// trapped later. Else it is the last trap, where one was taken. After an address stands its label.
///
/// # Errors
///
/// Out of memory: the run is done again step by step where a trap may be left.
pub fn ending_lines<C: CapRep>(
    alloc: Global,
    symbols: &Symbols,
    image: &Image,
    schedule: Schedule,
    input: &[u8],
    machine: &Machine<C>,
    steps: u64,
) -> Result<String, AllocError>
    requires range { IsRunnable schedule }
    requires ended { machine.now ≡ run_after (scheduled schedule input.now (opening image.now)) (opening image.now) }
    ensures { IfOk result (λ text. string_bytes text
        ≡ ending_lines symbols.now steps (trap_left (scheduled schedule input.now (opening image.now)) (opening image.now)) machine.now) }
{
    let lines = trap_left(alloc, symbols, image, schedule, input, machine)?;
    let mut text = String::new(alloc);
    put_standing(&mut text, symbols, machine.hart(), steps)?;
    append_trap_lines(&mut text, symbols, machine, &lines)?;
    Ok(text)
}
