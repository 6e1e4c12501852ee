//! What code can reach, in sum.
ghost use Rattle.std.specs.Prelude.{◌≡◌, ◌++◌, OnOk, string_bytes};
ghost use Rattle.reached.specs.Order.{seen_members};
ghost use Rattle.reach_texts.specs.Summary.{summary_text, system_line};

use crate::counts::append_count;
use crate::members::{Said, append_each};
use crate::open_devices::{device_lines, is_let};
use crate::opened::{append_or_none, append_ranges};
use cap_bounds::CapRep;
use reach::{Horizon, May, Right};
use reached::Member;
use std::alloc::{AllocError, Global};
use symbols::Symbols;
use texts::Piece::Text;
use texts::append;

/// Whether some member opens the system registers.
#[tactic(auto, unfolding(crate::specs::Summary::system_line))]
fn system_line<C: CapRep>(members: &[Member<C>]) -> &'static str
    ensures { result.now ≡ system_line (seen_members C.value members.now) }
{
    if is_let(members, May::System) {
        "system registers yes\n"
    } else {
        "system registers no\n"
    }
}

/// Appends the summary of a reach, or of what is reachable through doors: how many members there are, the ranges, registers and object
/// types that they open, and those that are sealed, with their numbers among all.
///
/// # Errors
///
/// Out of memory.
pub fn put_summary<C: CapRep>(
    text: &mut String,
    alloc: Global,
    symbols: &Symbols,
    members: &[Member<C>],
    horizon: Horizon,
) -> Result<(), AllocError>
    ensures { OnOk result (string_bytes text.new
        ≡ string_bytes text.old ++ summary_text horizon symbols.now (seen_members C.value members.now)) }
{
    append_count(text, members, horizon)?;
    append_ranges(text, alloc, symbols, members, Right::Load)?;
    append_ranges(text, alloc, symbols, members, Right::Capabilities)?;
    append_ranges(text, alloc, symbols, members, Right::Store)?;
    append_ranges(text, alloc, symbols, members, Right::Execute)?;
    append_or_none(text, "device", device_lines(members).as_str())?;
    append(text, &[Text(system_line(members))])?;
    append_ranges(text, alloc, symbols, members, Right::Seal)?;
    append_ranges(text, alloc, symbols, members, Right::Unseal)?;
    append_each(text, Said::IfSealed, symbols, members)
}
