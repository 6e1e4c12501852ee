//! Runs of which the calls and returns are told, in order.

ghost use Rattle.std.proofs.Common.{◌∙◌};
ghost use Rattle.std.specs.Prelude.{◌≡◌, ◌++◌, ◌+◌, ◌<◌, ◌^◌, [], ◌∷◌, Some, IfOk, IfSome, OnOk, false, length, refl, string_bytes, ⊤};
ghost use Rattle.steps.specs.State.{pc_of};
ghost use Rattle.steps.specs.declared.event.Event.TheVariants.{Step};
ghost use Rattle.schedules.specs.Schedule.{events_before, is_halted, scheduled, IsPlaceOf, IsRunnable};
ghost use Rattle.schedules.specs.declared.pace.Pace.{Pace};
ghost use Rattle.schedules.specs.declared.pace.Speed.TheVariants.{Each};
ghost use Rattle.origin_texts.specs.CallTrace.{call_trace, event_line, indent, level, newest_line, return_line};
ghost use Rattle.origin_texts.specs.CallTraced.{NotedStep, WritesCalls};
ghost use Rattle.origin_texts.specs.CallTraceLaws.{wrote_more_calls, wrote_no_calls};

use crate::calls::{Call, append_call, note_step};
use cap_bounds::CapRep;
use hart::Planned;
use machine::Machine;
use schedules::{How, Pace, Progress, Schedule, Speed, Walking, Watch, walk_told};
use std::alloc::{AllocError, Global};
use std::collections::VecDeque;
use symbols::{Symbols, labelled};
use texts::Piece::{Decimal, Text};
use texts::append;

/// An event of a run: its number, where PCC is before it, and how many calls are open before it.
#[derive(Clone, Copy)]
struct Place {
    number: u64,
    from: u64,
    depth: usize,
}

/// How many of the calls that are open around a line are shown.
fn level(depth: usize) -> usize
    ensures { result ≡ level depth }
{
    depth.min(64)
}

/// Appends two spaces for each call that is shown around a line.
fn append_indent(text: &mut String, depth: usize) -> Result<(), AllocError>
    ensures { OnOk result (string_bytes text.new ≡ string_bytes text.old ++ indent depth) }
{
    let mut left = depth;
    while left > 0 {
        append(text, &[Text("  ")])?;
        left -= 1;
    }
    Ok(())
}

/// Appends the line of the newest call, around which the others are open.
fn append_newest(
    text: &mut String,
    symbols: &Symbols,
    stack: &VecDeque<Call>,
) -> Result<(), AllocError>
    ensures { OnOk result (string_bytes text.new ≡ string_bytes text.old ++ newest_line symbols.now stack.now.items) }
{
    if stack.is_empty() {
        return Ok(());
    }
    append_indent(text, level(stack.len() - 1))?;
    append_call(text, symbols, stack[0])
}

/// Appends the line of a return.
#[tactic(auto, unfolding(crate::specs::CallTrace::return_line))]
fn append_return(
    text: &mut String,
    symbols: &Symbols,
    number: u64,
    from: u64,
    to: u64,
) -> Result<(), AllocError>
    ensures { OnOk result (string_bytes text.new ≡ string_bytes text.old ++ return_line symbols.now number from to) }
{
    let from = labelled(Some(symbols), from);
    let to = labelled(Some(symbols), to);
    append(
        text,
        &[
            Decimal(number),
            Text(" "),
            Text(from.as_str()),
            Text(" returned to "),
            Text(to.as_str()),
            Text("\n"),
        ],
    )
}

/// Appends what is told of an event that led to an address, and left these calls open.
fn append_event(
    text: &mut String,
    symbols: &Symbols,
    place: Place,
    to: u64,
    stack: &VecDeque<Call>,
) -> Result<(), AllocError>
    ensures { OnOk result (string_bytes text.new
        ≡ string_bytes text.old ++ event_line symbols.now place.number place.from to place.depth stack.now.items) }
{
    let left = stack.len();
    if place.depth < left {
        append_newest(text, symbols, stack)
    } else if left < place.depth {
        append_indent(text, level(left))?;
        append_return(text, symbols, place.number, place.from, to)
    } else {
        Ok(())
    }
}

/// Where PCC is.
fn pc<C: CapRep>(machine: &Machine<C>) -> u64
    ensures { result ≡ pc_of machine.now }
{
    machine.hart().scrs().pcc().address()
}

/// A watch that writes a line for each call and each return.
#[derive(Drop)]
struct CallLines<'a> {
    symbols: &'a Symbols,
    /// The calls that are open, the newest first.
    stack: VecDeque<Call>,
    text: String,
    /// How many events there were.
    number: u64,
    /// Where the step is fetched that it was asked before last.
    from: u64,
    /// How many calls were open before that step.
    depth: usize,
}

impl<C: CapRep> Watch<Machine<C>> for CallLines<'_> {
    type Fault = AllocError;

    ghost Saw = { λ events s a b. (b.symbols.now ≡ a.symbols.now)
        × WritesCalls a.symbols.now a.number a.stack.items events s b.number b.stack.items (string_bytes a.text) (string_bytes b.text) };

    ghost Lost = { λ _ _ _ _ _. ⊤ };

    ghost Barred = { λ _ _ _ _ _. ⊤ };

    ghost Asked = { λ s a b. (b.symbols.now ≡ a.symbols.now) × (b.number ≡ a.number) × (string_bytes b.text ≡ string_bytes a.text)
        × NotedStep (a.number + 1) a.stack.items s b.from b.depth b.stack.items };

    ghost IsReady = { λ _. ⊤ };

    ghost pace_of = { λ _. record { speed = Each; most = 18446744073709551615 } };

    ghost stops_at = { λ _ _. false };

    ghost starts = { λ s w. (refl, wrote_no_calls w.symbols.now w.number w.stack.items s (string_bytes w.text)) };

    ghost goes_on = { λ xs ys s u v w first later. (
      later.0 ∙ first.0,
      wrote_more_calls xs ys s u.symbols.now v.symbols.now u.number v.number w.number u.stack.items v.stack.items w.stack.items
          (string_bytes u.text) (string_bytes v.text) (string_bytes w.text) first.0 first.1 later.1,
    ) };

    ghost fails_later = { λ fault xs ys s u v w first later. tt };

    ghost bars_later = { λ fault xs ys s u v w first later. tt };

    fn pace(&self) -> Pace {
        Pace::of(Speed::Each)
    }

    fn stops(&self, _machine: &Machine<C>, _planned: &Planned<C>) -> bool {
        false
    }

    fn came(&mut self, _machine: &Machine<C>) {
        self.number = self.number.saturating_add(1);
    }

    fn passed(
        &mut self,
        _machine: &Machine<C>,
        _steps: u64,
        _sent: Option<u8>,
    ) -> Result<(), AllocError> {
        Ok(())
    }

    fn before(&mut self, machine: &Machine<C>, planned: &Planned<C>) -> Result<(), AllocError> {
        self.from = pc(machine);
        self.depth = self.stack.len();
        note_step(
            &mut self.stack,
            machine,
            planned,
            self.number.saturating_add(1),
        )
    }

    fn after(&mut self, machine: &Machine<C>, _sent: Option<u8>) -> Result<(), AllocError> {
        self.number = self.number.saturating_add(1);
        let place = Place {
            number: self.number,
            from: self.from,
            depth: self.depth,
        };
        append_event(
            &mut self.text,
            self.symbols,
            place,
            pc(machine),
            &self.stack,
        )
    }
}

/// Runs a machine on a schedule, and answers the lines of its calls and returns.
fn calls_of<C: CapRep, P: Progress>(
    alloc: Global,
    symbols: &Symbols,
    machine: &mut Machine<C>,
    schedule: Schedule,
    input: &[u8],
    progress: &mut P,
) -> Result<String, AllocError>
    requires range { IsRunnable schedule }
    requires running { is_halted machine.old ≡ false }
    ensures { IfOk result (λ text. string_bytes text
        ≡ call_trace symbols.now 0 [] (scheduled schedule input.now machine.old) machine.old) }
{
    let mut watch = CallLines {
        symbols,
        stack: VecDeque::new(alloc),
        text: String::new(alloc),
        number: 0,
        from: 0,
        depth: 0,
    };
    let Walking { how, steps: _ } = walk_told(machine, schedule, input, &mut watch, progress);
    match how {
        How::Done | How::Halted => Ok(watch.text),
        How::Stopped => unreachable!(),
        How::Failed(fault) | How::Barred(fault) => Err(fault),
    }
}

/// The calls and returns of a run of a machine, in order, up to before the step of a number, where one is given: a line for each, with the
/// number of its event, after two spaces for each call that is open around it. What the machine sends is forgotten, and `progress` is told
/// from time to time how many steps were done.
///
/// # Errors
///
/// Out of memory.
pub fn calls_before<C: CapRep, P: Progress>(
    alloc: Global,
    symbols: &Symbols,
    machine: &mut Machine<C>,
    schedule: Schedule,
    input: &[u8],
    stop: Option<u64>,
    progress: &mut P,
) -> Result<String, AllocError>
    requires range { IsRunnable schedule }
    requires place { IfSome stop (IsPlaceOf schedule) }
    requires running { is_halted machine.old ≡ false }
    ensures { IfOk result (λ text. string_bytes text
        ≡ call_trace symbols.now 0 [] (events_before stop schedule input.now machine.old) machine.old) }
{
    match stop {
        None => calls_of(alloc, symbols, machine, schedule, input, progress),
        // Before that step comes a byte at most, which calls nothing.
        Some(number) => {
            let first = schedule.first(number - 1);
            calls_of(alloc, symbols, machine, first, input, progress)
        }
    }
}
