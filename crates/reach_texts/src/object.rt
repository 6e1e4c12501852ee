//! The members of a reach as objects of JSON.
ghost use Rattle.std.specs.Prelude.{◌≡◌, ◌++◌, IfOk, OnOk, string_bytes};
ghost use Rattle.reached.specs.Order.{seen_member, seen_members};
ghost use Rattle.reach_texts.specs.Object.{found_fields, link_fields, member_fields, member_object, objects_text};

use crate::places::place_name;
use bounds_objects::put_value;
use cap_bounds::CapRep;
use objects::{Item, Writer, begin, finish, put, put_place};
use reached::{Member, Place};
use std::alloc::{AllocError, Global};
use symbols::Symbols;

/// Says a member's number, and that of the member that led to it; a root needs none.
#[tactic(auto, unfolding(crate::specs::Object::link_fields))]
fn put_link(object: &mut Writer, number: u64, place: Place, from: u64) -> Result<(), AllocError>
    ensures tokens { OnOk result (object.new.tokens ≡ object.old.tokens ++ link_fields number place from) }
    ensures alone { object.new.before ≡ object.old.before }
{
    let number = Item::Number("member", number);
    match place {
        Place::Root(_) => put(object, &[number, Item::Null("from")]),
        _ => put(object, &[number, Item::Number("from", from)]),
    }
}

/// Says where a member was found: the name of a register, or a granule's address with its label.
#[tactic(auto, unfolding(crate::specs::Object::found_fields))]
fn put_found(object: &mut Writer, symbols: &Symbols, place: Place) -> Result<(), AllocError>
    ensures tokens { OnOk result (object.new.tokens ≡ object.old.tokens ++ found_fields symbols.now place) }
    ensures alone { object.new.before ≡ object.old.before }
{
    match place {
        Place::Granule(address) => {
            put(object, &[Item::Null("register")])?;
            put_place(object, "granule", symbols, address)
        }
        other => {
            let name = place_name(symbols, other);
            put(
                object,
                &[Item::Text("register", name.as_str()), Item::Null("granule")],
            )
        }
    }
}

/// Says a member: its number, where it was found, the member that led there, and its capability.
///
/// # Errors
///
/// Out of memory.
#[tactic(auto, unfolding(crate::specs::Object::member_fields), using(objects::specs::ItemLaws::said_three))]
pub fn put_member<C: CapRep>(
    object: &mut Writer,
    symbols: &Symbols,
    number: u64,
    member: &Member<C>,
) -> Result<(), AllocError>
    ensures tokens { OnOk result (object.new.tokens
        ≡ object.old.tokens ++ member_fields symbols.now number (seen_member C.value member.now)) }
    ensures alone { object.new.before ≡ object.old.before }
{
    put_link(object, number, member.place, member.from as u64)?;
    put_found(object, symbols, member.place)?;
    put_value(object, "capability", member.cap)
}

/// The line of a member's object.
fn member_object<C: CapRep>(
    alloc: Global,
    symbols: &Symbols,
    number: u64,
    member: &Member<C>,
) -> Result<String, AllocError>
    ensures { IfOk result (λ line. string_bytes line ≡ member_object symbols.now number (seen_member C.value member.now)) }
{
    let mut object = begin(alloc)?;
    put_member(&mut object, symbols, number, member)?;
    finish(object)
}

/// Appends the members of a reach, in the order in which they were found, an object of JSON a line.
///
/// # Errors
///
/// Where there is no memory for the text.
pub fn put_objects<C: CapRep>(
    text: &mut String,
    alloc: Global,
    symbols: &Symbols,
    members: &[Member<C>],
) -> Result<(), AllocError>
    ensures { OnOk result (string_bytes text.new ≡ string_bytes text.old ++ objects_text symbols.now (seen_members C.value members.now)) }
{
    let mut number = 0;
    while number < members.len() {
        let line = member_object(alloc, symbols, number as u64, &members[number])?;
        text.push_str(line.as_str())?;
        number += 1;
    }
    Ok(())
}
