//! The names of places.
ghost use Rattle.std.specs.Prelude.{◌≡◌, ◌≤◌};
ghost use Rattle.arrayvec.specs.ArrayString.{array_string_len};
ghost use Rattle.origins.specs.Places.{IsHolder};
ghost use Rattle.origin_texts.specs.Link.{place_text};

use asm_names::{register_name, scr_name};
use origins::Place;
use symbols::{Labelled, Symbols, labelled};
use texts::Piece::Text;
use texts::text;

/// A place's name, or a granule's address with its label.
#[tactic(auto, unfolding(crate::specs::Link::place_text), using(disassembler::specs::LengthLaws::scr_name_short))]
pub(crate) fn place_text(symbols: &Symbols, place: Place) -> Labelled
    requires { IsHolder place }
    ensures text { result.bytes ≡ place_text symbols.now place }
    ensures within { array_string_len result ≤ 294 }
{
    match place {
        Place::Register(number) => text(&[Text(register_name(number, true))]),
        Place::Special(number) => match scr_name(number) {
            Some(name) => text(&[Text(name)]),
            None => Labelled::new(),
        },
        Place::Granule(address) => labelled(Some(symbols), address),
    }
}
