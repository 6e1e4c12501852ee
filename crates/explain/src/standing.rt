//! Where a machine stands after a run.
ghost use Rattle.std.specs.Prelude.{◌≡◌, ◌++◌, OnOk, string_bytes};
ghost use Rattle.steps.specs.State.{pc_of};
ghost use Rattle.explain.specs.StandingText.{run_fields, standing_fields, standing_text};

use cap_bounds::CapRep;
use hart::Hart;
use objects::{Item, Writer, put, put_place};
use std::alloc::AllocError;
use symbols::{Symbols, labelled};
use texts::Piece::{Decimal, Text};
use texts::append;

/// How a run stands.
#[derive(Clone, Copy, Debug, PartialEq, Eq)]
pub struct Standing {
    /// The status that the program ends with for it: 0 or 1.
    pub status: u8,
    /// The number that it halted with, if it did.
    pub halted: Option<u64>,
    /// How many steps were done.
    pub steps: u64,
}

/// PCC's address.
fn pc<C: CapRep>(hart: &Hart<C>) -> u64
    ensures { result ≡ pc_of hart.now }
{
    hart.scrs().pcc().address()
}

/// Appends how many steps were done and where PCC is to a text; after its address stands its label.
///
/// # Errors
///
/// Out of memory.
pub fn put_standing<C: CapRep>(
    text: &mut String,
    symbols: &Symbols,
    hart: &Hart<C>,
    steps: u64,
) -> Result<(), AllocError>
    ensures { OnOk result (string_bytes text.new ≡ string_bytes text.old ++ standing_text symbols.now steps hart.now) }
{
    let place = labelled(Some(symbols), pc(hart));
    append(
        text,
        &[
            Text("cherisim: steps "),
            Decimal(steps),
            Text(", pcc "),
            Text(place.as_str()),
        ],
    )
}

/// Says how a run stands.
#[tactic(auto, unfolding(crate::specs::StandingText::run_fields))]
fn put_run(object: &mut Writer, standing: Standing) -> Result<(), AllocError>
    ensures tokens { OnOk result (object.new.tokens ≡ object.old.tokens ++ run_fields standing) }
    ensures alone { object.new.before ≡ object.old.before }
{
    let status = Item::Number("status", u64::from(standing.status));
    let steps = Item::Number("steps", standing.steps);
    match standing.halted {
        Some(number) => put(object, &[status, Item::Address("halted", number), steps]),
        None => put(object, &[status, Item::Null("halted"), steps]),
    }
}

/// Says how a run stands, and where PCC is.
///
/// # Errors
///
/// Out of memory.
#[tactic(auto, unfolding(crate::specs::StandingText::standing_fields), using(objects::specs::ItemLaws::said_two))]
pub fn put_standing_fields<C: CapRep>(
    object: &mut Writer,
    symbols: &Symbols,
    hart: &Hart<C>,
    standing: Standing,
) -> Result<(), AllocError>
    ensures tokens { OnOk result (object.new.tokens ≡ object.old.tokens ++ standing_fields symbols.now standing hart.now) }
    ensures alone { object.new.before ≡ object.old.before }
{
    put_run(object, standing)?;
    put_place(object, "pcc", symbols, pc(hart))
}
