//! Conditions as objects, a line each.

ghost use Rattle.std.specs.Prelude.{◌≡◌, ◌++◌, IfOk, OnOk, codes, string_bytes};
ghost use Rattle.json.specs.Token.{Token};
ghost use Rattle.objects.specs.Places.{place_field};
ghost use Rattle.explain.specs.WhyObjects.{asks_field, bounds_fields, bytes_fields, condition_object, condition_objects};
ghost use Rattle.explain.specs.WhyObjects.{question_fields, right_fields};

use crate::conditions::{asked_name, capability_in, register_name};
use base::CheriCause;
use bounds_objects::put_value;
use cap_bounds::CapRep;
use cap_checks::{Condition, Question};
use hart::Hart;
use objects::{Item, Writer, begin, finish, put, put_place};
use std::alloc::{AllocError, Global};
use symbols::Symbols;

/// Says where some bytes begin, and how many they are.
#[tactic(auto, unfolding(crate::specs::WhyObjects::bytes_fields))]
fn put_bytes(
    object: &mut Writer,
    symbols: &Symbols,
    address: u64,
    size: u64,
) -> Result<(), AllocError>
    ensures tokens { OnOk result (object.new.tokens ≡ object.old.tokens ++ bytes_fields symbols.now address size) }
    ensures alone { object.new.before ≡ object.old.before }
{
    put_place(object, "address", symbols, address)?;
    put(object, &[Item::Number("size", size)])
}

/// Says what a capability must allow, and the register that holds it.
#[tactic(auto, unfolding(crate::specs::WhyObjects::right_fields))]
fn put_right<C: CapRep>(
    object: &mut Writer,
    hart: &Hart<C>,
    register: u64,
    cause: CheriCause,
) -> Result<(), AllocError>
    ensures tokens { OnOk result (object.new.tokens ≡ object.old.tokens ++ right_fields hart.now register cause) }
    ensures alone { object.new.before ≡ object.old.before }
{
    put(
        object,
        &[
            Item::Text("asks", "right"),
            Item::Text("right", asked_name(cause)),
            Item::Text("register", register_name(register)),
        ],
    )?;
    put_value(object, "capability", capability_in(hart, register))
}

/// Says which bytes must lie in a capability's bounds, and the register that holds it.
#[tactic(auto, unfolding(crate::specs::WhyObjects::bounds_fields))]
fn put_bounds<C: CapRep>(
    object: &mut Writer,
    symbols: &Symbols,
    hart: &Hart<C>,
    register: u64,
    address: u64,
    size: u64,
) -> Result<(), AllocError>
    ensures tokens { OnOk result (object.new.tokens ≡ object.old.tokens ++ bounds_fields symbols.now hart.now register address size) }
    ensures alone { object.new.before ≡ object.old.before }
{
    put(
        object,
        &[
            Item::Text("asks", "bounds"),
            Item::Text("register", register_name(register)),
        ],
    )?;
    put_bytes(object, symbols, address, size)?;
    put_value(object, "capability", capability_in(hart, register))
}

/// Says what is asked of some bytes.
fn put_asked_bytes(
    object: &mut Writer,
    what: &str,
    symbols: &Symbols,
    address: u64,
    size: u64,
) -> Result<(), AllocError>
    ensures tokens { OnOk result (object.new.tokens
        ≡ object.old.tokens ++ (asks_field what.now ++ bytes_fields symbols.now address size)) }
    ensures alone { object.new.before ≡ object.old.before }
{
    put(object, &[Item::Text("asks", what)])?;
    put_bytes(object, symbols, address, size)
}

/// Says that RAM is asked for, and where.
fn put_ram(object: &mut Writer, symbols: &Symbols, address: u64) -> Result<(), AllocError>
    ensures tokens { OnOk result (object.new.tokens
        ≡ object.old.tokens ++ (asks_field (codes "ram") ++ place_field (codes "address") symbols.now address)) }
    ensures alone { object.new.before ≡ object.old.before }
{
    put(object, &[Item::Text("asks", "ram")])?;
    put_place(object, "address", symbols, address)
}

/// Says what a condition asks.
#[tactic(auto, unfolding(crate::specs::WhyObjects::question_fields))]
fn put_question<C: CapRep>(
    object: &mut Writer,
    symbols: &Symbols,
    hart: &Hart<C>,
    question: Question,
) -> Result<(), AllocError>
    ensures tokens { OnOk result (object.new.tokens ≡ object.old.tokens ++ question_fields symbols.now hart.now question) }
    ensures alone { object.new.before ≡ object.old.before }
{
    match question {
        Question::Right { register, cause } => put_right(object, hart, register, cause),
        Question::Bounds {
            register,
            address,
            size,
        } => put_bounds(object, symbols, hart, register, address, size),
        Question::Multiple { address, size, .. } => {
            put_asked_bytes(object, "multiple", symbols, address, size)
        }
        Question::Ram { address, .. } => put_ram(object, symbols, address),
        Question::RamOrDevice { address, size, .. } => {
            put_asked_bytes(object, "ram_or_device", symbols, address, size.bytes())
        }
        Question::Instruction { .. } => put(object, &[Item::Text("asks", "instruction")]),
        Question::SystemRegister { .. } => put(object, &[Item::Text("asks", "system_register")]),
    }
}

/// The line of a condition's object.
#[tactic(auto, unfolding(crate::specs::WhyObjects::condition_object), using(objects::specs::ItemLaws::said_two))]
fn condition_object<C: CapRep>(
    alloc: Global,
    symbols: &Symbols,
    hart: &Hart<C>,
    condition: Condition,
) -> Result<String, AllocError>
    ensures { IfOk result (λ line. string_bytes line ≡ condition_object symbols.now hart.now condition) }
{
    let mut object = begin(alloc)?;
    put(&mut object, &[Item::Truth("holds", condition.holds)])?;
    put_question(&mut object, symbols, hart, condition.question)?;
    finish(object)
}

/// Appends the lines of conditions' objects to a text, up to the first that is false.
pub(crate) fn put_conditions<C: CapRep>(
    text: &mut String,
    symbols: &Symbols,
    hart: &Hart<C>,
    conditions: &[Condition],
) -> Result<(), AllocError>
    ensures { OnOk result (string_bytes text.new ≡ string_bytes text.old ++ condition_objects symbols.now hart.now conditions.now) }
{
    match conditions {
        [] => Ok(()),
        [first, rest @ ..] => {
            let line = condition_object(*text.allocator(), symbols, hart, *first)?;
            text.push_str(line.as_str())?;
            if first.holds {
                put_conditions(text, symbols, hart, rest)
            } else {
                Ok(())
            }
        }
    }
}
