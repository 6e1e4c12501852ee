//! The places where members are found.
ghost use Rattle.std.specs.Prelude.{◌≡◌, ◌≤◌, [], length};
ghost use Rattle.arrayvec.specs.ArrayString.{array_string_len};
ghost use Rattle.reach_texts.specs.Text.{place_name, place_through};
ghost use Rattle.disassembler.specs.Shown.{name_or};
ghost use Rattle.asm_names.specs.TrapNames.{register_at_fault as register_name_of};

use arrayvec::ArrayString;
use base::scr;
use doors::Door;
use explain::register_at_fault;
use reached::Place;
use symbols::{Symbols, labelled};
use texts::Piece::Text;
use texts::text;

/// A place, at most 294 bytes, or what is behind a door, at most 301.
pub(crate) type PlaceText = ArrayString<301>;

/// Where the special registers of a reach begin among those that mtval counts: after the 32 general registers, with MTCC.
const FIRST_SPECIAL: u64 = 32 + scr::MTCC as u64;

/// How many roots a state has: the 32 registers, PCC and DDC. What doors lead to comes after them.
pub(crate) const STATE_ROOTS: usize = 34;

/// A register's name, by its number among those that mtval counts; nothing where there is none.
#[tactic(auto, using(explain::specs::LengthLaws::register_at_fault_short))]
fn register(number: u64) -> &'static str
    ensures name { result.now ≡ name_or [] (register_name_of number) }
    ensures short { length result.now ≤ 20 }
{
    register_at_fault(number).unwrap_or("")
}

/// Where a member was found: a register's name, of the general ones as a capability register, or a granule's address, and after it the
/// label at it or below it, if there is one. There are four special registers that Access_System_Registers guards.
#[tactic(auto, unfolding(crate::specs::Text::place_name), using(crate::proofs::Specials::no_special))]
pub(crate) fn place_name(symbols: &Symbols, place: Place) -> PlaceText
    ensures text { result.bytes ≡ place_name symbols.now place }
    ensures within { array_string_len result ≤ 294 }
{
    match place {
        Place::Root(number) => text(&[Text(register(number as u64))]),
        Place::Special(number) if number < 4 => {
            text(&[Text(register(FIRST_SPECIAL + number as u64))])
        }
        Place::Special(_) => PlaceText::new(),
        Place::Granule(address) => text(&[Text(labelled(Some(symbols), address).as_str())]),
    }
}

/// Where a member was found that doors may lead to: after the roots of the state comes what is behind a door.
#[tactic(auto, unfolding(crate::specs::Text::place_through))]
pub(crate) fn place_through(symbols: &Symbols, doors: &[Door], place: Place) -> PlaceText
    ensures { result.bytes ≡ place_through symbols.now doors.now place }
{
    match place {
        Place::Root(number) if number >= STATE_ROOTS => match doors.get(number - STATE_ROOTS) {
            Some(door) => {
                let sealed = place_name(symbols, door.sealed);
                text(&[Text("behind "), Text(sealed.as_str())])
            }
            None => PlaceText::new(),
        },
        place => place_name(symbols, place),
    }
}
