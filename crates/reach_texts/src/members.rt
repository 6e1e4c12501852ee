//! The members of a reach, one after the other.
ghost use Rattle.std.specs.Prelude.{◌≡◌, ◌++◌, OnOk, string_bytes};
ghost use Rattle.reached.specs.Order.{seen_member, seen_members};
ghost use Rattle.reach_texts.specs.Summary.{said_of};
ghost use Rattle.reach_texts.specs.Text.{from_text, member_line, members_text, numbered};

use crate::graph::append_links;
use crate::places::place_name;
use arrayvec::ArrayString;
use bounds_text::permission_letters;
use cap_bounds::CapRep;
use cap_rights::is_sealed;
use explain::value_text;
use reached::{Member, Place};
use std::alloc::AllocError;
use symbols::Symbols;
use texts::Piece::{Decimal, Text};
use texts::{append, text};

/// What is said of each member.
#[derive(Clone, Copy)]
pub(crate) enum Said {
    /// Its line.
    Line,
    /// Its line, if it is sealed.
    IfSealed,
    /// Its node and the link to it.
    Links,
}

/// The number of the member that led to a place; a root needs none.
fn from_text(place: Place, from: usize) -> ArrayString<26>
    ensures { result.bytes ≡ from_text place from }
{
    match place {
        Place::Root(_) => ArrayString::new(),
        _ => text(&[Text(" from "), Decimal(from as u64)]),
    }
}

/// Appends the line of a member: its number, where it was found, the member that led there, and the capability.
#[tactic(auto, unfolding(crate::specs::Text::member_line))]
fn append_line<C: CapRep>(
    text: &mut String,
    symbols: &Symbols,
    number: usize,
    member: &Member<C>,
) -> Result<(), AllocError>
    ensures { OnOk result (string_bytes text.new
        ≡ string_bytes text.old ++ member_line symbols.now number (seen_member C.value member.now)) }
{
    let place = place_name(symbols, member.place);
    let from = from_text(member.place, member.from);
    let letters = permission_letters(member.cap.perms());
    let value = value_text(member.cap);
    append(
        text,
        &[
            Decimal(number as u64),
            Text(" "),
            Text(place.as_str()),
            Text(from.as_str()),
            Text(" "),
            Text(letters.as_str()),
            Text(" "),
            Text(value.as_str()),
            Text("\n"),
        ],
    )
}

/// Appends what is said of a member.
#[tactic(auto, unfolding(crate::specs::Summary::sealed_line))]
fn append_said<C: CapRep>(
    text: &mut String,
    said: Said,
    symbols: &Symbols,
    number: usize,
    member: &Member<C>,
) -> Result<(), AllocError>
    ensures { OnOk result (string_bytes text.new
        ≡ string_bytes text.old ++ said_of said symbols.now number (seen_member C.value member.now)) }
{
    match said {
        Said::Line => append_line(text, symbols, number, member),
        Said::IfSealed if is_sealed(member.cap) => append_line(text, symbols, number, member),
        Said::IfSealed => Ok(()),
        Said::Links => append_links(text, symbols, number, member),
    }
}

/// Appends what is said of each of the members, with its number among them.
pub(crate) fn append_each<C: CapRep>(
    text: &mut String,
    said: Said,
    symbols: &Symbols,
    members: &[Member<C>],
) -> Result<(), AllocError>
    ensures { OnOk result (string_bytes text.new
        ≡ string_bytes text.old ++ numbered (said_of said symbols.now) 0 (seen_members C.value members.now)) }
{
    let mut number = 0;
    while number < members.len() {
        append_said(text, said, symbols, number, &members[number])?;
        number += 1;
    }
    Ok(())
}

/// Appends the members of a reach, in the order in which they were found, a line each.
pub fn put_members<C: CapRep>(
    text: &mut String,
    symbols: &Symbols,
    members: &[Member<C>],
) -> Result<(), AllocError>
    ensures { OnOk result (string_bytes text.new ≡ string_bytes text.old ++ members_text symbols.now (seen_members C.value members.now)) }
{
    append_each(text, Said::Line, symbols, members)
}
