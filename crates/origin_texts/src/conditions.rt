//! The conditions of a tag as lines.
ghost use Rattle.std.specs.Prelude.{◌≡◌, ◌++◌, OnOk, string_bytes};
ghost use Rattle.explain.specs.WhyText.{mark};
ghost use Rattle.origin_texts.specs.Conditions.{condition_line, condition_lines, permission_text, question_text};
ghost use Rattle.origins.specs.Places.{IsHolder};
ghost use Rattle.origin_texts.specs.Asked.{AreAskedThere, IsAskedThere};
ghost use Rattle.origin_texts.specs.Link.{place_text};

use crate::place::place_text;
use cap_bounds::CapRep;
use cap_rights::Permission;
use explain::put_bounds;
use machine::Machine;
use origins::{Place, TagCondition, TagQuestion, held};
use std::alloc::AllocError;
use symbols::{Symbols, labelled};
use texts::Piece::{Decimal, Text};
use texts::append;

/// The name of a permission.
fn permission_name(permission: Permission) -> &'static str
    ensures { result.now ≡ permission_text permission }
{
    match permission {
        Permission::Global => "global",
        Permission::Execute => "execute",
        Permission::Load => "load",
        Permission::Store => "store",
        Permission::LoadCapability => "load capability",
        Permission::StoreCapability => "store capability",
        Permission::StoreLocalCapability => "store local capability",
        Permission::Seal => "seal",
        Permission::CInvoke => "CInvoke",
        Permission::Unseal => "unseal",
        Permission::AccessSystemRegisters => "access system registers",
        Permission::SetCid => "set CID",
    }
}

/// Appends a text and a place.
fn append_of(
    text: &mut String,
    symbols: &Symbols,
    asked: &str,
    place: Place,
) -> Result<(), AllocError>
    requires { IsHolder place }
    ensures { OnOk result (string_bytes text.new ≡ string_bytes text.old ++ (asked.now ++ place_text symbols.now place)) }
{
    let name = place_text(symbols, place);
    append(text, &[Text(asked), Text(name.as_str())])
}

/// Appends what a condition asks.
#[tactic(auto, unfolding(crate::specs::Conditions::question_text))]
fn append_question<C: CapRep>(
    text: &mut String,
    symbols: &Symbols,
    machine: &Machine<C>,
    question: TagQuestion,
) -> Result<(), AllocError>
    requires { IsAskedThere question machine.now }
    ensures { OnOk result (string_bytes text.new ≡ string_bytes text.old ++ question_text symbols.now machine.now question) }
{
    match question {
        TagQuestion::Tag(place) => append_of(text, symbols, "tag of ", place),
        TagQuestion::Seal(place) => append_of(text, symbols, "seal of ", place),
        TagQuestion::Window { place, address } => {
            let address = labelled(Some(symbols), address);
            append_of(text, symbols, "window of ", place)?;
            append(text, &[Text(": "), Text(address.as_str())])
        }
        TagQuestion::Bounds {
            place,
            address,
            size,
        } => {
            append_of(text, symbols, "length of ", place)?;
            put_bounds(text, symbols, address, size, held(machine, place))
        }
        TagQuestion::Exact { address, length } => {
            let address = labelled(Some(symbols), address);
            append(
                text,
                &[
                    Text("exact bounds: "),
                    Text(address.as_str()),
                    Text(" + "),
                    Decimal(length),
                ],
            )
        }
        TagQuestion::Permit { place, permission } => {
            append(text, &[Text("permit "), Text(permission_name(permission))])?;
            append_of(text, symbols, " of ", place)
        }
        TagQuestion::Type(place) => append_of(text, symbols, "type of ", place),
        TagQuestion::Capability => append(text, &[Text("a capability is written")]),
        TagQuestion::Kept => append(text, &[Text("the instruction keeps the tag")]),
    }
}

fn mark(holds: bool) -> &'static str
    ensures { result.now ≡ mark holds }
{
    if holds { "  ok " } else { "  no " }
}

/// Appends the line of a condition.
#[tactic(auto, unfolding(crate::specs::Conditions::condition_line))]
fn append_condition<C: CapRep>(
    text: &mut String,
    symbols: &Symbols,
    machine: &Machine<C>,
    condition: TagCondition,
) -> Result<(), AllocError>
    requires { IsAskedThere condition.question machine.now }
    ensures { OnOk result (string_bytes text.new ≡ string_bytes text.old ++ condition_line symbols.now machine.now condition) }
{
    append(text, &[Text(mark(condition.holds))])?;
    append_question(text, symbols, machine, condition.question)?;
    append(text, &[Text("\n")])
}

/// Appends the lines of conditions, up to the first that is false.
pub(crate) fn append_conditions<C: CapRep>(
    text: &mut String,
    symbols: &Symbols,
    machine: &Machine<C>,
    conditions: &[TagCondition],
) -> Result<(), AllocError>
    requires { AreAskedThere conditions.now machine.now }
    ensures { OnOk result (string_bytes text.new ≡ string_bytes text.old ++ condition_lines symbols.now machine.now conditions.now) }
{
    match conditions {
        [] => Ok(()),
        [first, rest @ ..] => {
            append_condition(text, symbols, machine, *first)?;
            if first.holds {
                append_conditions(text, symbols, machine, rest)
            } else {
                Ok(())
            }
        }
    }
}
