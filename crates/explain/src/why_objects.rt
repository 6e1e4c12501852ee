//! What the next step will do, and why, as objects.

ghost use Rattle.std.specs.Prelude.{◌≡◌, ◌%◌, ◌++◌, IfOk, IfSome, OnOk, string_bytes, true};
ghost use Rattle.objects.specs.Items.{object_line as line_of};
ghost use Rattle.steps.specs.Applying.{meant};
ghost use Rattle.steps.specs.Looks.{HasRegisters};
ghost use Rattle.steps.specs.Step.{fetch_asked, step_fetched};
ghost use Rattle.explain.specs.Asked.{all_conditions, stages_of, word_stages};
ghost use Rattle.explain.specs.StepFields.{effect_fields, instruction_fields};
ghost use Rattle.explain.specs.WhyObjects.{running_objects, stages_objects, why_objects, word_at_pcc};

use crate::asked::put_conditions;
use crate::stages::here;
use crate::step_fields::{put_effect, put_instruction};
use crate::why::word_at;
use base::INSTRUCTION_BYTES;
use cap_bounds::CapRep;
use cap_checks::{Condition, Question};
use hart::Hart;
use isa_rows::Insn;
use objects::{Item, begin, finish, object_line};
use std::alloc::{AllocError, Global};
use steps::{Effect, Fetched};
use symbols::Symbols;

/// The word at PCC, where there is RAM.
#[tactic(auto, unfolding(crate::specs::WhyObjects::word_at_pcc))]
fn word_at_pcc<C: CapRep>(hart: &Hart<C>) -> Option<u32>
    ensures { result ≡ word_at_pcc hart.now }
{
    let address = hart.scrs().pcc().address();
    if hart.memory().is_in_ram(address, INSTRUCTION_BYTES) {
        Some(word_at(hart.memory(), address))
    } else {
        None
    }
}

/// The line of the object of the instruction at PCC.
fn instruction_object<C: CapRep>(
    alloc: Global,
    symbols: &Symbols,
    hart: &Hart<C>,
) -> Result<String, AllocError>
    ensures { IfOk result (λ line. string_bytes line
        ≡ line_of (instruction_fields symbols.now (word_at_pcc hart.now) hart.now)) }
{
    let mut object = begin(alloc)?;
    put_instruction(&mut object, symbols, hart, word_at_pcc(hart))?;
    finish(object)
}

/// The line of an effect's object.
fn effect_object<C: CapRep>(
    alloc: Global,
    symbols: &Symbols,
    effect: &Effect<C>,
) -> Result<String, AllocError>
    ensures { IfOk result (λ line. string_bytes line ≡ line_of (effect_fields symbols.now (meant C.value effect.now))) }
{
    let mut object = begin(alloc)?;
    put_effect(&mut object, symbols, effect)?;
    finish(object)
}

/// Appends an effect's object to a text.
fn append_effect<C: CapRep>(
    text: &mut String,
    symbols: &Symbols,
    effect: &Effect<C>,
) -> Result<(), AllocError>
    ensures { OnOk result (string_bytes text.new
        ≡ string_bytes text.old ++ line_of (effect_fields symbols.now (meant C.value effect.now))) }
{
    let line = effect_object(*text.allocator(), symbols, effect)?;
    text.push_str(line.as_str())
}

/// What a word that is fetched asks, as this instruction, if it is one.
fn word_conditions<C: CapRep>(
    alloc: Global,
    hart: &Hart<C>,
    word: u32,
    insn: Option<Insn>,
) -> Result<Vec<Condition>, AllocError>
    requires registers { IfSome insn HasRegisters }
    ensures { IfOk result (λ asked. asked.items ≡ all_conditions (word_stages insn word hart.now)) }
{
    let question = Question::Instruction {
        word: u64::from(word),
    };
    match insn {
        Some(insn) => {
            let mut all = Vec::new(alloc);
            all.push(Condition {
                question,
                holds: true,
            })?;
            let asked = hart.asked(alloc, word, insn)?;
            all.extend_from_slice(&asked)?;
            Ok(all)
        }
        None => {
            let mut all = Vec::new(alloc);
            all.push(Condition {
                question,
                holds: false,
            })?;
            Ok(all)
        }
    }
}

/// What the next step, which fetches so, asks in all its stages, of a machine that is not halted.
#[tactic(auto, unfolding(crate::specs::Asked::stages_of))]
fn all_conditions<C: CapRep>(
    alloc: Global,
    hart: &Hart<C>,
    fetched: Fetched,
) -> Result<Vec<Condition>, AllocError>
    requires { fetched ≡ step_fetched hart.now }
    ensures { IfOk result (λ asked. asked.items ≡ all_conditions (stages_of hart.now)) }
{
    match fetched {
        Fetched::Interrupt => Ok(Vec::new(alloc)),
        Fetched::Fault => hart.fetch_asked(alloc),
        Fetched::Word(word, insn) => {
            let mut all = hart.fetch_asked(alloc)?;
            let asked = word_conditions(alloc, hart, word, insn)?;
            all.extend_from_slice(&asked)?;
            Ok(all)
        }
    }
}

/// Appends the objects of the conditions that the next step, which fetches so, asks to a text.
#[tactic(auto, unfolding(crate::specs::WhyObjects::stages_objects))]
fn put_stages<C: CapRep>(
    text: &mut String,
    symbols: &Symbols,
    hart: &Hart<C>,
    fetched: Fetched,
) -> Result<(), AllocError>
    requires { fetched ≡ step_fetched hart.now }
    ensures { OnOk result (string_bytes text.new ≡ string_bytes text.old ++ stages_objects symbols.now hart.now) }
{
    let asked = all_conditions(*text.allocator(), hart, fetched)?;
    put_conditions(text, symbols, hart, &asked)
}

/// Appends the objects of what the next step will do, and why, to a text.
fn put_running<C: CapRep>(
    text: &mut String,
    symbols: &Symbols,
    hart: &Hart<C>,
) -> Result<(), AllocError>
    ensures { OnOk result (string_bytes text.new ≡ string_bytes text.old ++ running_objects symbols.now hart.now) }
{
    let instruction = instruction_object(*text.allocator(), symbols, hart)?;
    text.push_str(instruction.as_str())?;
    let planned = hart.next();
    put_stages(text, symbols, hart, planned.fetched)?;
    append_effect(text, symbols, &planned.effect)
}

/// Appends what the next step will do, and why, to a text, as objects of JSON, one a line, of the same values as `put_why`: the instruction
/// at PCC, each condition of its stages up to the first that is false, and the effect; or that the machine is halted.
///
/// # Errors
///
/// Where there is no memory for the text.
#[tactic(auto, unfolding(crate::specs::WhyObjects::why_objects))]
pub fn put_why_objects<C: CapRep>(
    text: &mut String,
    symbols: &Symbols,
    hart: &Hart<C>,
) -> Result<(), AllocError>
    ensures { OnOk result (string_bytes text.new ≡ string_bytes text.old ++ why_objects symbols.now hart.now) }
{
    match hart.halted() {
        Some(number) => {
            let line = object_line(*text.allocator(), &[Item::Address("halted", number)])?;
            text.push_str(line.as_str())
        }
        None => put_running(text, symbols, hart),
    }
}
