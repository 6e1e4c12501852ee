//! Places: an address, the label at it or below it, and the line of a source that places its instruction.

ghost use Rattle.std.specs.Prelude.{◌≡◌, ◌++◌, OnOk, true};
ghost use Rattle.objects.specs.Places.{label_fields, place_field, source_field};
ghost use Rattle.symbols.specs.Symbols.{is_label};

use crate::item::Item;
use crate::line::put;
use json::Writer;
use std::alloc::AllocError;
use symbols::Symbols;

/// A label as a text.
fn name_text(name: &[u8]) -> &str
    requires { is_label name.now ≡ true }
    ensures { result.now ≡ name.now }
{
    match str::from_utf8(name) {
        Ok(text) => text,
        Err(_) => unreachable!(),
    }
}

/// Says the label at an address or nearest below it, and the distance from it; nothing of them where none is fewer than 4096 bytes below.
#[tactic(auto, unfolding(crate::specs::Places::label_fields))]
fn put_label(object: &mut Writer, symbols: &Symbols, address: u64) -> Result<(), AllocError>
    ensures tokens { OnOk result (object.new.tokens ≡ object.old.tokens ++ label_fields symbols.now address) }
    ensures alone { object.new.before ≡ object.old.before }
{
    let Some(symbol) = symbols.nearest(address) else {
        return put(object, &[Item::Null("label"), Item::Null("offset")]);
    };
    let distance = address.saturating_sub(symbol.address());
    if distance < 4096 {
        let name = name_text(symbol.name());
        put(
            object,
            &[Item::Text("label", name), Item::Number("offset", distance)],
        )
    } else {
        put(object, &[Item::Null("label"), Item::Null("offset")])
    }
}

/// Says the line of a source that places the instruction at an address.
#[tactic(auto, unfolding(crate::specs::Places::source_field))]
fn put_source(object: &mut Writer, symbols: &Symbols, address: u64) -> Result<(), AllocError>
    ensures tokens { OnOk result (object.new.tokens ≡ object.old.tokens ++ source_field symbols.now address) }
    ensures alone { object.new.before ≡ object.old.before }
{
    match symbols.source_at(address) {
        Some(line) => put(object, &[Item::Text("source", line)]),
        None => put(object, &[Item::Null("source")]),
    }
}

/// Says a place: an address, its label and the line of a source that places its instruction, each where it is known.
///
/// # Errors
///
/// Out of memory.
#[tactic(auto, unfolding(crate::specs::Places::place_field))]
pub fn put_place(
    object: &mut Writer,
    name: &str,
    symbols: &Symbols,
    address: u64,
) -> Result<(), AllocError>
    ensures tokens { OnOk result (object.new.tokens ≡ object.old.tokens ++ place_field name.now symbols.now address) }
    ensures alone { object.new.before ≡ object.old.before }
{
    put(
        object,
        &[Item::Begin(name), Item::Address("address", address)],
    )?;
    put_label(object, symbols, address)?;
    put_source(object, symbols, address)?;
    put(object, &[Item::End])
}
