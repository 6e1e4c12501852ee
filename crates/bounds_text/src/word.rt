//! The text of a capability's word, and permissions as letters.

ghost use Rattle.std.specs.Prelude.{◌≡◌, ◌↔◌, ◌<◌, ◌≤◌, ◌++◌, IsTrue, length};
ghost use Rattle.arrayvec.specs.ArrayString.{array_string_len};
ghost use Rattle.cap_bounds.specs.Mantissa.{exponent_of};
ghost use Rattle.cap_bounds.specs.Record.{IsWordWellFormed};
ghost use Rattle.cap_bounds.specs.Window.{base_of_word, top_of_word};
ghost use Rattle.bounds_text.specs.Letters.{letter, permission_letters};
ghost use Rattle.bounds_text.specs.WordText.{ShowsWord, bytes_between, field_lines, form_lines, sealing_of, sealing_text, word_of_halves};

use crate::either;
use arrayvec::ArrayString;
use base::otype;
use cap_bounds::{CapRep, Window};
use cap_format::CapWord;
use cap_rights::Perms;
use texts::{fill, pieces, text};
use word_cap::is_well_formed;

/// A permission's letter, or `-` where its bit is 0.
#[tactic(auto, unfolding(crate::specs::Letters::letter))]
fn letter(perms: u16, bit: u32, name: &'static str) -> &'static str
    requires bit { bit < 16 }
    requires name { length name.now ≡ 1 }
    ensures text { result.now ≡ letter name.now bit perms }
    ensures length { length result.now ≡ 1 }
{
    if (perms >> bit) & 1 == 1 { name } else { "-" }
}

/// The 12 hardware permissions of a capability, a letter each in the order of their bits from bit 0 on, and `-` for each that it lacks.
#[tactic(auto, unfolding(crate::specs::Letters::permission_letters))]
pub fn permission_letters(perms: u16) -> ArrayString<12>
    ensures text { result.bytes ≡ permission_letters perms }
    ensures length { array_string_len result ≡ 12 }
{
    text(&pieces![
        Text(letter(perms, 0, "G")) Text(letter(perms, 1, "X")) Text(letter(perms, 2, "R"))
        Text(letter(perms, 3, "W")) Text(letter(perms, 4, "c")) Text(letter(perms, 5, "C"))
        Text(letter(perms, 6, "L")) Text(letter(perms, 7, "s")) Text(letter(perms, 8, "i"))
        Text(letter(perms, 9, "u")) Text(letter(perms, 10, "S")) Text(letter(perms, 11, "d"))
    ])
}

/// How a capability with an object type may be used (UCAM-CL-TR-987, sealed capabilities).
#[derive(Clone, Copy, Debug)]
pub enum Sealing {
    /// As its permissions say.
    Unsealed,
    /// It is a sentry, which a jump unseals.
    Sentry,
    /// It is sealed with a reserved type that has no meaning.
    Reserved,
    /// It is sealed with a type of its own.
    Sealed,
}

/// What an object type says.
#[tactic(auto, unfolding(crate::specs::WordText::sealing_of))]
pub fn sealing_of(otype: u32) -> Sealing
    ensures { result ≡ sealing_of otype }
{
    if otype == otype::UNSEALED {
        Sealing::Unsealed
    } else if otype == otype::SENTRY {
        Sealing::Sentry
    } else if otype::FIRST_RESERVED <= otype {
        Sealing::Reserved
    } else {
        Sealing::Sealed
    }
}

/// The end of the line of an object type.
fn sealing_text<'a>(sealing: Sealing) -> &'a str
    ensures text { result.now ≡ sealing_text sealing }
    ensures short { length result.now ≤ 20 }
{
    match sealing {
        Sealing::Unsealed => " unsealed\n",
        Sealing::Sentry => " sentry\n",
        Sealing::Reserved => " sealed, reserved\n",
        Sealing::Sealed => " sealed\n",
    }
}

/// A capability's word, and what its fields say: of these values both its text and its object are made.
#[derive(Clone, Copy)]
pub struct Decoded {
    /// The word.
    pub word: CapWord,
    /// Whether it may be tagged.
    pub well_formed: bool,
    /// The top of its bounds, modulo `2^65`; the base is that of the window.
    pub top: u128,
    /// How many bytes lie between its bounds, modulo `2^65`.
    pub length: u128,
    /// The window of its bounds, of those of a word that may be tagged.
    pub window: Window,
    ghost formed: { IsTrue well_formed ↔ IsWordWellFormed word },
    ghost high: { top ≡ top_of_word word },
    ghost between: { length ≡ bytes_between (base_of_word word) (top_of_word word) },
    ghost low: { window.base ≡ base_of_word word },
    ghost exponent: { window.e ≡ exponent_of word },
}

impl Decoded {
    /// The word of these halves, of its logical form, or with `memory` of that which stands in memory.
    pub fn of<C: CapRep>(high: u64, low: u64, memory: bool) -> Decoded
        ensures { result.word ≡ word_of_halves high low memory }
    {
        let halves = u128::from(high) << 64 | u128::from(low);
        let mask = if memory { CapWord::NULL.logical() } else { 0 };
        let word = CapWord::from_logical(halves ^ mask);
        let bits = C::from_word(word, false);
        let (base, top) = (bits.base(), bits.top());
        Decoded {
            word,
            well_formed: is_well_formed(word),
            top,
            length: (top + (1 << 65) - u128::from(base)) % (1 << 65),
            window: Window::of(word, base),
        }
    }
}

/// The halves of a word, whether it may be tagged, its address and its bounds.
#[tactic(auto, unfolding(crate::specs::WordText::form_lines))]
fn form_text(decoded: Decoded) -> crate::Text
    ensures text { result.bytes ≡ form_lines decoded.well_formed decoded.word }
    ensures within { array_string_len result ≤ 480 }
{
    let word = decoded.word;
    let logical = word.logical();
    let stored = logical ^ CapWord::NULL.logical();
    let tag = either(
        decoded.well_formed,
        "\ntag      0 or 1\n",
        "\ntag      0, as the word is malformed\n",
    );
    text(&pieces![
        "logical  " Hexadecimal(16, logical >> 64) " " Hexadecimal(16, logical)
        "\nmemory   " Hexadecimal(16, stored >> 64) " " Hexadecimal(16, stored) Text(tag)
        "address  " Address(word.address()) "\nbounds   " Address(decoded.window.base) " "
        Hexadecimal(17, decoded.top) "\n"
    ])
}

/// Appends how many bytes lie between a word's bounds, its fields and the window of its bounds.
#[tactic(auto, unfolding(crate::specs::WordText::field_lines))]
fn append_fields(text: &mut crate::Text, word: CapWord, length: u128, window: Window)
    requires room { array_string_len text.old ≤ 480 }
    requires length { length ≡ bytes_between window.base (top_of_word word) }
    requires base { window.base ≡ base_of_word word }
    requires exponent { window.e ≡ exponent_of word }
    ensures { text.new.bytes ≡ text.old.bytes ++ field_lines word }
{
    let perms = word.perms();
    let letters = permission_letters(perms);
    let otype = word.otype();
    let fields = pieces![
        "length   " WideDecimal(length)
        "\nperms    " Hexadecimal(5, u128::from(Perms { bits: perms }.hardware())) " " Text(letters.as_str())
        "\notype    " Hexadecimal(5, u128::from(otype)) Text(sealing_text(sealing_of(otype)))
        Text(either(word.flag(), "flag     1\n", "flag     0\n"))
        Text(either(word.ie(), "encoding IE 1 T ", "encoding IE 0 T ")) Hexadecimal(3, u128::from(word.t_field()))
        " B " Hexadecimal(4, u128::from(word.b_field())) ", exponent " Decimal(u64::from(window.e))
        "\nwindow   " Address(window.first()) " " Address(window.last()) "\n"
    ];
    fill(text, &fields);
}

/// What the word of these halves means, as a text, tagged or not: the halves are those of its logical form, or with `memory` those
/// that stand in memory.
///
/// Its lines are the halves of both forms; whether the word may be tagged; its address, its bounds and how many bytes lie between
/// them; its permissions, object type and flag; the fields that encode the bounds; and the first and the last address of the window
/// in which the bounds of a word that may be tagged stay.
///
/// It takes no memory, and nothing is refused.
#[tactic(auto, unfolding(crate::specs::WordText::word_text))]
pub fn word_text<C: CapRep>(high: u64, low: u64, memory: bool) -> crate::Text
    ensures { ShowsWord (word_of_halves high low memory) result.bytes }
{
    let decoded = Decoded::of::<C>(high, low, memory);
    let (word, length, window) = (decoded.word, decoded.length, decoded.window);
    let mut text = form_text(decoded);
    append_fields(&mut text, word, length, window);
    text
}
