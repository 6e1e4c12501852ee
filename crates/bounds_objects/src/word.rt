//! The object of a capability's word.

ghost use Rattle.std.specs.Prelude.{◌≡◌, ◌++◌, IfOk, OnOk, string_bytes};
ghost use Rattle.cap_bounds.specs.Mantissa.{exponent_of};
ghost use Rattle.cap_bounds.specs.Window.{base_of_word, top_of_word};
ghost use Rattle.bounds_text.specs.WordText.{bytes_between, word_of_halves};
ghost use Rattle.bounds_objects.specs.Word.{right_fields, sealing_word};
ghost use Rattle.bounds_objects.specs.Word.{IsObjectOfWord, encoding_fields, field_fields, form_fields, half_fields, place_fields};

use crate::pair::put_pair;
use bounds_text::{Decoded, Sealing, permission_letters, sealing_of};
use cap_bounds::{CapRep, Window};
use cap_format::CapWord;
use cap_rights::Perms;
use objects::{Item, Writer, begin, finish, put};
use std::alloc::{AllocError, Global};

/// The word for what an object type says.
pub(crate) fn sealing_word<'a>(sealing: Sealing) -> &'a str
    ensures { result.now ≡ sealing_word sealing }
{
    match sealing {
        Sealing::Unsealed => "unsealed",
        Sealing::Sentry => "sentry",
        Sealing::Reserved => "reserved",
        Sealing::Sealed => "sealed",
    }
}

/// Says the halves of a word in both forms.
#[tactic(auto, unfolding(crate::specs::Word::half_fields), using(objects::specs::ItemLaws::said_two))]
fn put_halves(object: &mut Writer, word: CapWord) -> Result<(), AllocError>
    ensures tokens { OnOk result (object.new.tokens ≡ object.old.tokens ++ half_fields word) }
    ensures alone { object.new.before ≡ object.old.before }
{
    let logical = word.logical();
    let stored = logical ^ CapWord::NULL.logical();
    put_pair(object, "logical", "high", logical >> 64, "low", logical)?;
    put_pair(object, "memory", "high", stored >> 64, "low", stored)
}

/// Says whether a word may be tagged, its address and its bounds.
#[tactic(auto, unfolding(crate::specs::Word::place_fields))]
fn put_bounds(
    object: &mut Writer,
    word: CapWord,
    well_formed: bool,
    base: u64,
    top: u128,
) -> Result<(), AllocError>
    requires base { base ≡ base_of_word word }
    requires top { top ≡ top_of_word word }
    ensures tokens { OnOk result (object.new.tokens ≡ object.old.tokens ++ place_fields well_formed word) }
    ensures alone { object.new.before ≡ object.old.before }
{
    put(
        object,
        &[
            Item::Truth("well_formed", well_formed),
            Item::Address("address", word.address()),
            Item::Address("base", base),
            Item::Wide("top", top),
        ],
    )
}

/// Says how many bytes lie between a word's bounds, its permissions and its object type.
#[tactic(auto, unfolding(crate::specs::Word::right_fields))]
fn put_rights(object: &mut Writer, word: CapWord, length: u128) -> Result<(), AllocError>
    requires { length ≡ bytes_between (base_of_word word) (top_of_word word) }
    ensures tokens { OnOk result (object.new.tokens ≡ object.old.tokens ++ right_fields word) }
    ensures alone { object.new.before ≡ object.old.before }
{
    let perms = word.perms();
    let letters = permission_letters(perms);
    let otype = word.otype();
    put(
        object,
        &[
            Item::Wide("length", length),
            Item::Number("perms", u64::from(Perms { bits: perms }.hardware())),
            Item::Text("letters", letters.as_str()),
            Item::Number("otype", u64::from(otype)),
            Item::Text("sealing", sealing_word(sealing_of(otype))),
        ],
    )
}

/// Says a word's flag, and the fields that encode its bounds.
#[tactic(auto, unfolding(crate::specs::Word::encoding_fields))]
fn put_encoding(object: &mut Writer, word: CapWord, window: Window) -> Result<(), AllocError>
    requires { window.e ≡ exponent_of word }
    ensures tokens { OnOk result (object.new.tokens ≡ object.old.tokens ++ encoding_fields word) }
    ensures alone { object.new.before ≡ object.old.before }
{
    put(
        object,
        &[
            Item::Truth("flag", word.flag()),
            Item::Truth("ie", word.ie()),
            Item::Number("t", u64::from(word.t_field())),
            Item::Number("b", u64::from(word.b_field())),
            Item::Number("exponent", u64::from(window.e)),
        ],
    )
}

/// Says both forms of a word, whether it may be tagged, its address and its bounds.
#[tactic(auto, unfolding(crate::specs::Word::form_fields), using(objects::specs::ItemLaws::said_two))]
fn put_form(
    object: &mut Writer,
    word: CapWord,
    well_formed: bool,
    base: u64,
    top: u128,
) -> Result<(), AllocError>
    requires base { base ≡ base_of_word word }
    requires top { top ≡ top_of_word word }
    ensures tokens { OnOk result (object.new.tokens ≡ object.old.tokens ++ form_fields well_formed word) }
    ensures alone { object.new.before ≡ object.old.before }
{
    put_halves(object, word)?;
    put_bounds(object, word, well_formed, base, top)
}

/// Says how many bytes lie between a word's bounds, its fields and the window of its bounds.
#[tactic(auto, unfolding(crate::specs::Word::field_fields), using(objects::specs::ItemLaws::said_three))]
fn put_fields(
    object: &mut Writer,
    word: CapWord,
    length: u128,
    window: Window,
) -> Result<(), AllocError>
    requires base { window.base ≡ base_of_word word }
    requires exponent { window.e ≡ exponent_of word }
    requires length { length ≡ bytes_between (base_of_word word) (top_of_word word) }
    ensures tokens { OnOk result (object.new.tokens ≡ object.old.tokens ++ field_fields word) }
    ensures alone { object.new.before ≡ object.old.before }
{
    let first = u128::from(window.first());
    let last = u128::from(window.last());
    put_rights(object, word, length)?;
    put_encoding(object, word, window)?;
    put_pair(object, "window", "first", first, "last", last)
}

/// What the word of these halves means, tagged or not, as the line of an object: of the same values as `word_text`.
///
/// # Errors
///
/// Out of memory.
#[tactic(auto, using(objects::specs::ItemLaws::said_two))]
pub fn word_object<C: CapRep>(
    alloc: Global,
    high: u64,
    low: u64,
    memory: bool,
) -> Result<String, AllocError>
    ensures { IfOk result (λ line. IsObjectOfWord (word_of_halves high low memory) (string_bytes line)) }
{
    let decoded = Decoded::of::<C>(high, low, memory);
    let (word, well_formed, window) = (decoded.word, decoded.well_formed, decoded.window);
    let (base, top, length) = (window.base, decoded.top, decoded.length);
    let mut object = begin(alloc)?;
    put_form(&mut object, word, well_formed, base, top)?;
    put_fields(&mut object, word, length, window)?;
    finish(object)
}
