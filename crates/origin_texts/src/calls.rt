//! The calls that a session's past leaves open: who called whom and has not returned.
ghost use Rattle.std.specs.Prelude.{◌≡◌, ◌++◌, ◌<◌, ◌^◌, ◌+◌, [], length, drop, if◌then◌else◌, string_bytes};
ghost use Rattle.std.specs.Prelude.{IfOk, IfSome, IfNone, None, OnOk, Some, false, option_copied};
ghost use Rattle.std.specs.List.{flat_map};
ghost use Rattle.steps.specs.Applying.{IsPlanned, meant};
ghost use Rattle.steps.specs.Event.{after};
ghost use Rattle.steps.specs.Step.{insn_fetched, step_fetched};
ghost use Rattle.steps.specs.declared.event.Event.TheVariants.{Step};
ghost use Rattle.hart.specs.Opening.{opening};
ghost use Rattle.schedules.specs.Schedule.{is_halted};
ghost use Rattle.origin_texts.specs.Calls as spec;

use cap_bounds::CapRep;
use hart::Hart;
use isa_rows::{Insn, Kind};
use machine::{Event, Machine, Planned};
use past::{Past, PastEvents, Replay};
use schedules::{Count, Progress};
use special_regs::entry_address;
use std::alloc::{AllocError, Global};
use std::collections::VecDeque;
use steps::Effect;
use symbols::{Symbols, labelled};
use texts::Piece::{Decimal, Text};
use texts::append;
use word_cap::WordCap;

/// How control goes to what is called.
#[derive(Clone, Copy, Debug, PartialEq, Eq)]
pub(crate) enum Passage {
    /// By a jump within PCC, or to a capability that is not sealed.
    Jump,
    /// Through a sentry.
    Sentry,
    /// Through a pair.
    Pair,
    /// By a trap.
    Trap,
}

/// A call.
#[derive(Clone, Copy, Debug)]
pub(crate) struct Call {
    /// The number of its event, from 1 on.
    pub number: u64,
    pub passage: Passage,
    /// The address of the instruction that calls, or that is not done since it traps or an interrupt comes before it.
    pub from: u64,
    /// The address that control goes to.
    pub to: u64,
    /// The address that it is to return to.
    pub back: u64,
}

/// A return.
#[derive(Clone, Copy, Debug)]
enum Return {
    /// To an address.
    To(u64),
    /// From a trap.
    FromTrap,
}

impl Return {
    /// Whether it ends a call.
    fn ends(self, call: Call) -> bool
        ensures { result ≡ spec.ends self call }
    {
        match self {
            Return::To(address) => call.back == address,
            Return::FromTrap => matches!(call.passage, Passage::Trap),
        }
    }
}

/// A call by the next instruction, which is to return to the instruction after it.
fn call_to<C: CapRep>(hart: &Hart<C>, passage: Passage, to: u64, number: u64) -> Call
    ensures { result ≡ spec.call_to passage to number hart.now }
{
    let from = hart.scrs().pcc().address();
    Call {
        number,
        passage,
        from,
        to,
        back: from.wrapping_add(4),
    }
}

/// A trap, which is to return to the instruction that is not done.
fn trap_to<C: CapRep>(hart: &Hart<C>, entry: u64, number: u64) -> Call
    ensures { result ≡ spec.trap_to entry number hart.now }
{
    let from = hart.scrs().pcc().address();
    Call {
        number,
        passage: Passage::Trap,
        from,
        to: entry,
        back: from,
    }
}

/// Puts a call before the others, unless it goes where it is to return to.
fn push_call(stack: &mut VecDeque<Call>, call: Call) -> Result<(), AllocError>
    ensures { OnOk result (stack.new.items ≡ spec.with_call call stack.old.items) }
{
    if call.to != call.back {
        stack.push_front(call)?;
    }
    Ok(())
}

/// How many calls are newer than the newest that a return ends, if it ends one.
fn newer_than(stack: &VecDeque<Call>, ending: Return) -> Option<usize>
    ensures some { IfSome result (λ n. (n < length stack.now.items)
        × (spec.left_by ending stack.now.items ≡ Some (drop (n + 1) stack.now.items))) }
    ensures none { IfNone result (spec.left_by ending stack.now.items ≡ None) }
{
    let mut n = 0;
    while n < stack.len() {
        if ending.ends(stack[n]) {
            return Some(n);
        }
        n += 1;
    }
    None
}

/// Takes the newest calls away.
fn drop_newest(stack: &mut VecDeque<Call>, count: usize)
    ensures { stack.new.items ≡ drop count stack.old.items }
{
    let mut left = count;
    while left > 0 {
        stack.pop_front();
        left -= 1;
    }
}

/// Returns, and answers whether a call is ended.
fn returns(stack: &mut VecDeque<Call>, ending: Return) -> bool
    ensures left { stack.new.items ≡ spec.returned ending stack.old.items }
    ensures ends { spec.left_by ending stack.old.items ≡ if result then Some stack.new.items else None }
{
    match newer_than(stack, ending) {
        Some(newer) => {
            drop_newest(stack, newer + 1);
            true
        }
        None => false,
    }
}

/// Jumps, with a link in a register.
fn jump(stack: &mut VecDeque<Call>, kind: Kind, rd: u8, call: Call) -> Result<(), AllocError>
    ensures { OnOk result (stack.new.items ≡ spec.jumped kind rd call stack.old.items) }
{
    let is_over = match kind {
        Kind::Jal => rd == 0,
        Kind::Invoke => returns(stack, Return::To(call.to)),
        _ if rd == 0 => {
            returns(stack, Return::To(call.to));
            true
        }
        _ => false,
    };
    if is_over {
        Ok(())
    } else {
        push_call(stack, call)
    }
}

/// How control goes where a jump of a kind leads, by whether what it goes to is sealed.
fn passage_of(kind: Kind, sealed: bool) -> Passage
    ensures { result ≡ spec.passage_of kind sealed }
{
    match kind {
        Kind::Invoke => Passage::Pair,
        _ if sealed => Passage::Sentry,
        _ => Passage::Jump,
    }
}

/// The same, of the instruction that the next step does.
fn jump_by<C: CapRep>(
    stack: &mut VecDeque<Call>,
    hart: &Hart<C>,
    insn: Option<Insn>,
    sealed: bool,
    rd: u8,
    to: u64,
    number: u64,
) -> Result<(), AllocError>
    ensures { OnOk result (stack.new.items ≡ spec.jumped_by insn sealed rd to number hart.now stack.old.items) }
{
    match insn {
        Some(insn) => {
            let kind = insn.row.kind();
            jump(
                stack,
                kind,
                rd,
                call_to(hart, passage_of(kind, sealed), to, number),
            )
        }
        None => Ok(()),
    }
}

/// What an effect makes of the calls.
fn note_effect<C: CapRep>(
    stack: &mut VecDeque<Call>,
    hart: &Hart<C>,
    effect: &Effect<C>,
    insn: Option<Insn>,
    number: u64,
) -> Result<(), AllocError>
    ensures { OnOk result (stack.new.items ≡ spec.calls_by (meant C.value effect.now) insn number hart.now stack.old.items) }
{
    match effect {
        Effect::Trap(fault) => {
            let entry = entry_address(*fault, hart.scrs().mtcc().address());
            push_call(stack, trap_to(hart, entry, number))
        }
        Effect::Link(link) => jump_by(stack, hart, insn, false, link.rd, link.target, number),
        Effect::Enter(enter) => {
            jump_by(
                stack,
                hart,
                insn,
                enter.sealed,
                enter.rd,
                enter.target,
                number,
            )
        }
        Effect::Return { .. } => {
            returns(stack, Return::FromTrap);
            Ok(())
        }
        _ => Ok(()),
    }
}

/// Notes what the next step of a machine makes of the calls, which is planned, in the event of this number.
pub(crate) fn note_step<C: CapRep>(
    stack: &mut VecDeque<Call>,
    machine: &Machine<C>,
    planned: &Planned<C>,
    number: u64,
) -> Result<(), AllocError>
    requires planned { IsPlanned C.value planned.now.effect machine.now }
    requires fetched { planned.now.fetched ≡ step_fetched machine.now }
    requires running { is_halted machine.now ≡ false }
    ensures { OnOk result (stack.new.items ≡ spec.calls_at Step number machine.now stack.old.items) }
{
    note_effect(
        stack,
        machine.hart(),
        &planned.effect,
        planned.fetched.insn(),
        number,
    )
}

/// Meets an event of this number.
fn meet<C: CapRep>(
    stack: &mut VecDeque<Call>,
    machine: &mut Machine<C>,
    event: Event,
    number: u64,
) -> Result<(), AllocError>
    ensures calls { OnOk result (stack.new.items ≡ spec.calls_at event number machine.old stack.old.items) }
    ensures state { OnOk result (machine.new ≡ after event machine.old) }
{
    match event {
        Event::Step if machine.halted().is_none() => {
            let planned = machine.next();
            note_step(stack, machine, &planned, number)?;
            machine.apply(planned);
            Ok(())
        }
        _ => {
            machine.event(event);
            Ok(())
        }
    }
}

/// The calls that events leave open.
fn open_after<P: Progress>(
    alloc: Global,
    machine: &mut Machine<WordCap>,
    events: &mut PastEvents,
    counted: &mut Count<'_, P>,
) -> Result<VecDeque<Call>, AllocError>
    requires { length events.old < 2 ^ 64 }
    ensures { IfOk result (λ stack. stack.items ≡ spec.open_after 0 [] events.old machine.old) }
{
    let mut stack = VecDeque::new(alloc);
    let mut before = 0;
    while let Some(event) = events.next_event() {
        meet(&mut stack, machine, event, before + 1)?;
        counted.pass(1);
        before += 1;
    }
    Ok(stack)
}

/// The calls that a session's past leaves open.
#[tactic(auto, unfolding(crate::specs::Calls::open_calls))]
fn open_calls<P: Progress>(
    alloc: Global,
    past: &Past,
    replay: Option<&Replay>,
    counted: &mut Count<'_, P>,
) -> Result<VecDeque<Call>, AllocError>
    ensures { IfOk result (λ stack. stack.items ≡ spec.open_calls past.now (option_copied replay.entry)) }
{
    let Ok((mut machine, _)) = past.machine_at::<WordCap>(alloc, replay, 0) else {
        return Err(AllocError);
    };
    let _count = past.count();
    let mut events = past.events(replay);
    open_after(alloc, &mut machine, &mut events, counted)
}

/// How control goes to what is called, as a text.
fn passage_text(passage: Passage) -> &'static str
    ensures { result.now ≡ spec.passage_text passage }
{
    match passage {
        Passage::Jump => " called ",
        Passage::Sentry => " called through a sentry ",
        Passage::Pair => " called through a pair ",
        Passage::Trap => " trapped to ",
    }
}

/// Appends the number of a call's event, and where it was called.
#[tactic(auto, unfolding(crate::specs::Calls::source_part))]
fn append_source(text: &mut String, symbols: &Symbols, call: Call) -> Result<(), AllocError>
    ensures { OnOk result (string_bytes text.new ≡ string_bytes text.old ++ spec.source_part symbols.now call) }
{
    let from = labelled(Some(symbols), call.from);
    append(
        text,
        &[Decimal(call.number), Text(" "), Text(from.as_str())],
    )
}

/// Appends what was called, and where it is to return to.
#[tactic(auto, unfolding(crate::specs::Calls::target_part))]
fn append_target(text: &mut String, symbols: &Symbols, call: Call) -> Result<(), AllocError>
    ensures { OnOk result (string_bytes text.new ≡ string_bytes text.old ++ spec.target_part symbols.now call) }
{
    let to = labelled(Some(symbols), call.to);
    let back = labelled(Some(symbols), call.back);
    append(
        text,
        &[
            Text(to.as_str()),
            Text(", to return to "),
            Text(back.as_str()),
            Text("\n"),
        ],
    )
}

/// Appends the line of a call.
#[tactic(auto, unfolding(crate::specs::Calls::call_line))]
pub(crate) fn append_call(
    text: &mut String,
    symbols: &Symbols,
    call: Call,
) -> Result<(), AllocError>
    ensures { OnOk result (string_bytes text.new ≡ string_bytes text.old ++ spec.call_line symbols.now call) }
{
    append_source(text, symbols, call)?;
    append(text, &[Text(passage_text(call.passage))])?;
    append_target(text, symbols, call)
}

/// Appends the lines of calls, the newest first.
fn append_calls(
    text: &mut String,
    symbols: &Symbols,
    stack: &mut VecDeque<Call>,
) -> Result<(), AllocError>
    ensures { OnOk result (string_bytes text.new ≡ string_bytes text.old ++ flat_map (spec.call_line symbols.now) stack.old.items) }
{
    while let Some(call) = stack.pop_front() {
        append_call(text, symbols, call)?;
    }
    Ok(())
}

/// Appends the calls that a session's past leaves open, a line each, the newest first.
///
/// It costs a pass over the past's events, which `counted` counts.
///
/// # Errors
///
/// Out of memory.
#[tactic(auto, unfolding(crate::specs::Calls::calls_text))]
pub fn put_calls<P: Progress>(
    text: &mut String,
    alloc: Global,
    symbols: &Symbols,
    past: &Past,
    replay: Option<&Replay>,
    counted: &mut Count<'_, P>,
) -> Result<(), AllocError>
    ensures { OnOk result (string_bytes text.new
        ≡ string_bytes text.old ++ spec.calls_text symbols.now past.now (option_copied replay.entry)) }
{
    let mut stack = open_calls(alloc, past, replay, counted)?;
    if stack.is_empty() {
        return append(text, &[Text("no call is open\n")]);
    }
    append_calls(text, symbols, &mut stack)
}
