//! Whether code may do something, as a text.
ghost use Rattle.std.specs.Prelude.{◌≡◌, ◌<◌, ◌++◌, length, IfSome, OnOk, string_bytes};
ghost use Rattle.reached.specs.Chain.{AreInOrder};
ghost use Rattle.reached.specs.Order.{chain_of, seen_members};
ghost use Rattle.reach_texts.specs.Text.{answer_text, chain_text, held_text, no_text, place_at};

use crate::places::{PlaceText, place_through};
use bounds_text::permission_letters;
use cap_bounds::CapRep;
use doors::Door;
use explain::value_text;
use reach::Horizon;
use reached::{Member, chain};
use std::alloc::{AllocError, Global};
use symbols::Symbols;
use texts::Piece::Text;
use texts::append;

/// Where the member of a number was found.
#[tactic(auto, using(crate::proofs::Seen::seen_at))]
fn place_at<C: CapRep>(
    symbols: &Symbols,
    doors: &[Door],
    members: &[Member<C>],
    number: usize,
) -> PlaceText
    ensures { result.bytes ≡ place_at symbols.now doors.now (seen_members C.value members.now) number }
{
    match members.get(number) {
        Some(member) => place_through(symbols, doors, member.place),
        None => PlaceText::new(),
    }
}

/// Appends the places that lead from a root to a member.
fn append_chain<C: CapRep>(
    text: &mut String,
    symbols: &Symbols,
    doors: &[Door],
    members: &[Member<C>],
    way: &[usize],
) -> Result<(), AllocError>
    ensures { OnOk result (string_bytes text.new
        ≡ string_bytes text.old ++ chain_text symbols.now doors.now (seen_members C.value members.now) way.now) }
{
    let Some((first, later)) = way.split_first() else {
        return Ok(());
    };
    append(
        text,
        &[Text(place_at(symbols, doors, members, *first).as_str())],
    )?;
    for number in later {
        let place = place_at(symbols, doors, members, *number);
        append(text, &[Text(" -> "), Text(place.as_str())])?;
    }
    Ok(())
}

/// Appends the places that lead to the member of a number, and its capability.
pub fn put_held<C: CapRep>(
    text: &mut String,
    alloc: Global,
    symbols: &Symbols,
    doors: &[Door],
    members: &[Member<C>],
    number: usize,
) -> Result<(), AllocError>
    requires inside { number < length members.now }
    requires order { AreInOrder members.now }
    ensures { OnOk result (string_bytes text.new ≡ string_bytes text.old ++ held_text symbols.now doors.now
        (seen_members C.value members.now) (chain_of (seen_members C.value members.now) number) number) }
{
    let way = chain(alloc, members, number)?;
    append_chain(text, symbols, doors, members, &way)?;
    let cap = members[number].cap;
    let letters = permission_letters(cap.perms());
    let value = value_text(cap);
    append(
        text,
        &[
            Text(" "),
            Text(letters.as_str()),
            Text(" "),
            Text(value.as_str()),
        ],
    )
}

/// That no member opens what is asked for, and up to where that holds.
fn no_text(horizon: Horizon) -> &'static str
    ensures { result.now ≡ no_text horizon }
{
    match horizon {
        Horizon::Stretch => "no, until the next trap, unsealing or sealed jump\n",
        Horizon::Turn => "no, until the next trap or unsealing\n",
    }
}

/// Appends what is answered where a member of a number, or none, opens what is asked for.
#[tactic(auto, unfolding(crate::specs::Text::answer_text))]
pub fn put_answer<C: CapRep>(
    text: &mut String,
    alloc: Global,
    horizon: Horizon,
    symbols: &Symbols,
    doors: &[Door],
    members: &[Member<C>],
    answer: Option<usize>,
) -> Result<(), AllocError>
    requires inside { IfSome answer (λ k. k < length members.now) }
    requires order { AreInOrder members.now }
    ensures { OnOk result (string_bytes text.new
        ≡ string_bytes text.old ++ answer_text horizon symbols.now doors.now (seen_members C.value members.now) answer) }
{
    match answer {
        Some(number) => {
            append(text, &[Text("yes: ")])?;
            put_held(text, alloc, symbols, doors, members, number)?;
            append(text, &[Text("\n")])
        }
        None => append(text, &[Text(no_text(horizon))]),
    }
}
