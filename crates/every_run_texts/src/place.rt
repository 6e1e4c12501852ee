//! Where any code finds a capability.
ghost use Rattle.std.specs.Prelude.{◌≡◌, ◌++◌, OnOk, string_bytes};
ghost use Rattle.every_run_texts.specs.Text.{place_text, root_text};

use explain::register_at_fault;
use reached::Place;
use std::alloc::AllocError;
use symbols::{Symbols, labelled};
use texts::Piece::Text;
use texts::append;

/// How many roots come first: the 32 registers, PCC and DDC.
const FIRST_SPECIAL: usize = 34;

/// Where what doors lead to begins: after the four special registers.
const FIRST_DOOR: usize = 38;

/// The name of a root.
fn root_text(number: usize) -> &'static str
    ensures { result.now ≡ root_text number }
{
    if number < FIRST_SPECIAL {
        register_at_fault(number as u64).unwrap_or("")
    } else if number < FIRST_DOOR {
        register_at_fault(number as u64 + 26).unwrap_or("")
    } else {
        "behind a door"
    }
}

/// Appends a place to a text.
pub(crate) fn append_place(
    text: &mut String,
    symbols: &Symbols,
    place: Place,
) -> Result<(), AllocError>
    ensures { OnOk result (string_bytes text.new ≡ string_bytes text.old ++ place_text symbols.now place) }
{
    match place {
        Place::Root(number) => append(text, &[Text(root_text(number))]),
        Place::Special(_) => Ok(()),
        Place::Granule(address) => append(text, &[Text(labelled(Some(symbols), address).as_str())]),
    }
}
