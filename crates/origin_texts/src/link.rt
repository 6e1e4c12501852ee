//! One link of a derivation, as a line.
ghost use Rattle.std.specs.Prelude.{◌≡◌, ◌<◌, ◌≤◌, ◌-◌, ◌^◌, ◌++◌, length, IsTrue, OnOk, string_bytes, IfSome};
ghost use Rattle.texts.specs.Piece.{text_of, width_of, are_narrow};
ghost use Rattle.steps.specs.Applying.{IsPlanned};
ghost use Rattle.steps.specs.Event.{after};
ghost use Rattle.steps.specs.declared.event.Event.TheVariants.{Step};
ghost use Rattle.origins.specs.Making.{source};
ghost use Rattle.origins.specs.Places.{IsThere};
ghost use Rattle.origin_texts.specs.Link.{kept_notes, link_text, notes, opening_name, opening_text, seal_note, source_text, unless};

use crate::place::place_text;
use arrayvec::ArrayString;
use cap_bounds::CapRep;
use cap_rights::is_sealed;
use explain::{trace_line, value_text};
use machine::{Machine, Planned};
use origins::{Found, Making, Place, held};
use std::alloc::AllocError;
use symbols::Symbols;
use texts::Piece::{self, Text};
use texts::{append, fill, text};

/// A note, unless what it speaks of is the same.
fn unless(same: bool, note: &'static str) -> &'static str
    ensures text { result.now ≡ unless same note.now }
    ensures short { length result.now ≤ length note.now }
{
    if same { "" } else { note }
}

/// What became of a seal.
fn seal_note(before: bool, after: bool) -> &'static str
    ensures text { result.now ≡ seal_note before after }
    ensures short { length result.now ≤ 10 }
{
    match (before, after) {
        (false, true) => ", sealed",
        (true, false) => ", unsealed",
        _ => "",
    }
}

/// What was cut of a capability that another was made of.
fn kept_notes<C: CapRep>(from: C, made: C) -> [Piece<'static>; 3]
    ensures text { text_of result ≡ kept_notes (C.value from) (C.value made) }
    ensures narrow { IsTrue (are_narrow result) }
    ensures within { width_of result ≤ 39 }
{
    let same_bounds = made.base() == from.base() && made.top() == from.top();
    [
        Text(unless(same_bounds, ", bounds cut")),
        Text(unless(made.perms() == from.perms(), ", permissions cut")),
        Text(seal_note(is_sealed(from), is_sealed(made))),
    ]
}

/// What was cut of a value that another was made of.
#[tactic(auto, unfolding(crate::specs::Link::notes))]
fn notes<C: CapRep>(from: C, made: C) -> [Piece<'static>; 3]
    ensures text { text_of result ≡ notes (C.value from) (C.value made) }
    ensures narrow { IsTrue (are_narrow result) }
    ensures within { width_of result ≤ 39 }
{
    match (from.tag(), made.tag()) {
        (true, true) => kept_notes(from, made),
        (true, false) => [Text(", tag cut"), Text(""), Text("")],
        _ => [Text(""), Text(""), Text("")],
    }
}

/// Where the value came from that the machine's next step, which was planned, writes at a place. It is done on the way.
pub(crate) fn source_text<C: CapRep>(
    symbols: &Symbols,
    machine: &mut Machine<C>,
    planned: Planned<C>,
    place: Place,
    making: Making,
) -> ArrayString<333>
    requires planned { IsPlanned C.value planned.effect machine.old }
    requires there { IsThere place machine.old }
    requires source { IfSome (source making) (λ from. IsThere from machine.old) }
    ensures text { result.bytes ≡ source_text symbols.now place (source making) machine.old }
    ensures state { machine.new ≡ after Step machine.old }
{
    let Some(from) = making.source() else {
        machine.apply(planned);
        return text(&[Text("no capability")]);
    };
    let mut source = text(&[Text(place_text(symbols, from).as_str())]);
    let before = held(machine, from);
    machine.apply(planned);
    fill(&mut source, &notes(before, held(machine, place)));
    source
}

/// What stands before what a place holds in an opening state.
fn opening_name(place: Place) -> &'static str
    ensures { result.now ≡ opening_name place }
{
    match place {
        Place::Granule(_) => "image: ",
        _ => "opening state: ",
    }
}

/// Appends what a place holds in the opening state of an image.
#[tactic(auto, unfolding(crate::specs::Link::opening_text))]
pub(crate) fn append_opening<C: CapRep>(
    text: &mut String,
    symbols: &Symbols,
    machine: &Machine<C>,
    place: Place,
) -> Result<(), AllocError>
    requires { IsThere place machine.now }
    ensures { OnOk result (string_bytes text.new ≡ string_bytes text.old ++ opening_text symbols.now place machine.now) }
{
    let name = place_text(symbols, place);
    let value = value_text(held(machine, place));
    append(text, &[Text(opening_name(place))])?;
    append(
        text,
        &[
            Text(name.as_str()),
            Text(" "),
            Text(value.as_str()),
            Text("\n"),
        ],
    )
}
