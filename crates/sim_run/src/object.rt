//! How a run ended, as an object.

ghost use Rattle.std.specs.Prelude.{◌≡◌, ◌++◌, IfOk, OnOk, string_bytes};
ghost use Rattle.hart.specs.Opening.{opening};
ghost use Rattle.machine.specs.Run.{run_after};
ghost use Rattle.schedules.specs.Schedule.{scheduled, IsRunnable};
ghost use Rattle.explain.specs.StandingText.{standing_fields};
ghost use Rattle.sim_run.specs.Object.{ending_object, fault_fields, last_trap_field, standing, stopped_objects, trap_field};
ghost use Rattle.sim_run.specs.Unhandled.{trap_left};
ghost use Rattle.sim_run.specs.Watched.{fields_of};

use crate::ending::{is_trapped, mcause, mepc, mtval, verdict};
use crate::notes::{First, Last};
use crate::run::Ran;
use crate::unhandled::traps_taken;
use base::Fault;
use cap_bounds::CapRep;
use explain::{Standing, put_standing_fields, put_why_objects, trap_text};
use image::Image;
use machine::{End, Machine};
use objects::{Item, Writer, begin, finish, put, put_place};
use schedules::Schedule;
use std::alloc::{AllocError, Global};
use symbols::Symbols;

/// Says the number of a trap's step, where that is known, and what it left.
#[tactic(auto, unfolding(crate::specs::Object::fault_fields))]
fn put_fault(object: &mut Writer, number: Option<u64>, fault: Fault) -> Result<(), AllocError>
    ensures tokens { OnOk result (object.new.tokens ≡ object.old.tokens ++ fault_fields number fault) }
    ensures alone { object.new.before ≡ object.old.before }
{
    let words = trap_text(fault.mcause, fault.mtval);
    let mcause = Item::Address("mcause", fault.mcause);
    let mtval = Item::Address("mtval", fault.mtval);
    let words = Item::Text("words", words.as_str());
    match number {
        Some(number) => {
            let step = Item::Number("step", number);
            put(object, &[step, mcause, mtval, words])
        }
        None => put(object, &[Item::Null("step"), mcause, mtval, words]),
    }
}

/// Says a trap: the number of its step, where that is known, what it left, and where it was taken.
fn put_trap(
    object: &mut Writer,
    name: &str,
    symbols: &Symbols,
    number: Option<u64>,
    fault: Fault,
    mepc: u64,
) -> Result<(), AllocError>
    ensures tokens { OnOk result (object.new.tokens ≡ object.old.tokens ++ trap_field name.now symbols.now number fault mepc) }
    ensures alone { object.new.before ≡ object.old.before }
{
    put(object, &[Item::Begin(name)])?;
    put_fault(object, number, fault)?;
    put_place(object, "mepc", symbols, mepc)?;
    put(object, &[Item::End])
}

/// Says the last trap that was taken, where one was.
#[tactic(auto, unfolding(crate::specs::Object::last_trap_field))]
fn put_last_trap<C: CapRep>(
    object: &mut Writer,
    symbols: &Symbols,
    machine: &Machine<C>,
) -> Result<(), AllocError>
    ensures tokens { OnOk result (object.new.tokens ≡ object.old.tokens ++ last_trap_field symbols.now machine.now) }
    ensures alone { object.new.before ≡ object.old.before }
{
    let fault = Fault {
        mcause: mcause(machine),
        mtval: mtval(machine),
    };
    if is_trapped(fault.mcause, fault.mtval) {
        put_trap(object, "last_trap", symbols, None, fault, mepc(machine))
    } else {
        put(object, &[Item::Null("last_trap")])
    }
}

/// Says the traps that matter: the first and the last, where the last step was one, or else the last that was taken.
#[tactic(auto, using(objects::specs::ItemLaws::said_three))]
fn put_traps<C: CapRep>(
    object: &mut Writer,
    symbols: &Symbols,
    machine: &Machine<C>,
    taken: Option<(First, Last)>,
) -> Result<(), AllocError>
    ensures tokens { OnOk result (object.new.tokens ≡ object.old.tokens ++ fields_of symbols.now taken machine.now) }
    ensures alone { object.new.before ≡ object.old.before }
{
    match taken {
        Some((first, last)) => {
            put_trap(
                object,
                "first_trap",
                symbols,
                Some(first.number),
                first.fault,
                first.pc,
            )?;
            put_trap(
                object,
                "last_trap",
                symbols,
                Some(last.number),
                last.fault,
                last.pc,
            )?;
            put(object, &[Item::Number("unfetched", last.unfetched)])
        }
        None => {
            put(object, &[Item::Null("first_trap")])?;
            put_last_trap(object, symbols, machine)?;
            put(object, &[Item::Number("unfetched", 0)])
        }
    }
}

/// How a run ended, and how many steps were done.
fn standing(ran: Ran) -> Standing
    ensures { result ≡ standing ran.end ran.steps }
{
    let (status, _) = verdict(ran.end);
    let halted = match ran.end {
        End::Halted(number) => Some(number),
        End::Running => None,
    };
    Standing {
        status,
        halted,
        steps: ran.steps,
    }
}

/// Says how a run ended, how many steps were done, and where PCC is.
fn put_end<C: CapRep>(
    object: &mut Writer,
    symbols: &Symbols,
    machine: &Machine<C>,
    ran: Ran,
) -> Result<(), AllocError>
    ensures tokens { OnOk result (object.new.tokens
        ≡ object.old.tokens ++ standing_fields symbols.now (standing ran.end ran.steps) machine.now) }
    ensures alone { object.new.before ≡ object.old.before }
{
    put_standing_fields(object, symbols, machine.hart(), standing(ran))
}

/// The line of an object that says how a run of an image on a schedule ended, of the same values as `ending_lines`: its status, the number
/// that it halted with, if it did, how many steps were done, where PCC is, and the traps that matter.
///
/// # Errors
///
/// Out of memory: the run is done again step by step where a trap may be left.
#[tactic(auto, using(objects::specs::ItemLaws::said_two))]
pub fn ending_object<C: CapRep>(
    alloc: Global,
    symbols: &Symbols,
    image: &Image,
    schedule: Schedule,
    input: &[u8],
    machine: &Machine<C>,
    ran: Ran,
) -> Result<String, AllocError>
    requires range { IsRunnable schedule }
    requires ended { machine.now ≡ run_after (scheduled schedule input.now (opening image.now)) (opening image.now) }
    ensures { IfOk result (λ line. string_bytes line ≡ ending_object symbols.now ran.end ran.steps
        (trap_left (scheduled schedule input.now (opening image.now)) (opening image.now)) machine.now) }
{
    let taken = traps_taken(alloc, symbols, image, schedule, input, machine)?;
    let mut object = begin(alloc)?;
    put_end(&mut object, symbols, machine, ran)?;
    put_traps(&mut object, symbols, machine, taken)?;
    finish(object)
}

/// The lines of objects that say where a run ended before a step that traps, of the same values as `stopped_lines`: how it ended, how many
/// steps were done and where PCC is; and what the next step will do, and why, an object a line.
///
/// # Errors
///
/// Out of memory.
#[tactic(auto, unfolding(crate::specs::Object::stopped_objects))]
pub fn stopped_objects<C: CapRep>(
    alloc: Global,
    symbols: &Symbols,
    machine: &Machine<C>,
    ran: Ran,
) -> Result<String, AllocError>
    ensures { IfOk result (λ text. string_bytes text ≡ stopped_objects symbols.now ran.end ran.steps machine.now) }
{
    let mut object = begin(alloc)?;
    put_end(&mut object, symbols, machine, ran)?;
    let mut text = finish(object)?;
    put_why_objects(&mut text, symbols, machine.hart())?;
    Ok(text)
}
