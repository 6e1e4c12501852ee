//! The ranges that members open, a line each.
ghost use Rattle.std.specs.Prelude.{◌≡◌, ◌++◌, OnOk, string_bytes};
ghost use Rattle.reached.specs.Order.{seen_members};
ghost use Rattle.reach_texts.specs.Summary.{or_none, range_line, ranges_text, right_name};

use arrayvec::ArrayString;
use base::otype;
use cap_bounds::CapRep;
use reach::{Range, Right, ranges};
use reached::Member;
use std::alloc::{AllocError, Global};
use symbols::{Symbols, labelled};
use texts::Piece::{Hexadecimal, Text};
use texts::{append, text};

/// Appends lines, or that there is none.
pub(crate) fn append_or_none(text: &mut String, name: &str, lines: &str) -> Result<(), AllocError>
    ensures { OnOk result (string_bytes text.new ≡ string_bytes text.old ++ or_none name.now lines.now) }
{
    if lines.is_empty() {
        append(text, &[Text(name), Text(" none\n")])
    } else {
        append(text, &[Text(lines)])
    }
}

/// The name of a right.
#[tactic(auto, unfolding(crate::specs::Summary::right_name))]
fn right_name(right: Right) -> ArrayString<17>
    ensures { result.bytes ≡ right_name right }
{
    text(&[Text(match right {
        Right::Load => "load",
        Right::Capabilities => "load capabilities",
        Right::Store => "store",
        Right::Execute => "execute",
        Right::Keep => "keep",
        Right::Seal => "seal",
        Right::Unseal => "unseal",
    })])
}

/// Appends the line of a range that members open to a right: addresses, the first with its label, or object types without the reserved
/// ones, and nothing where there are no others.
#[tactic(auto, unfolding(crate::specs::Summary::range_line))]
fn append_range(
    text: &mut String,
    symbols: &Symbols,
    right: Right,
    range: Range,
) -> Result<(), AllocError>
    ensures { OnOk result (string_bytes text.new ≡ string_bytes text.old ++ range_line symbols.now right range) }
{
    let name = right_name(right);
    if !matches!(right, Right::Seal | Right::Unseal) {
        let from = labelled(Some(symbols), range.from);
        return append(
            text,
            &[
                Text(name.as_str()),
                Text(" "),
                Text(from.as_str()),
                Text(" to "),
                Hexadecimal(17, range.to),
                Text("\n"),
            ],
        );
    }
    if range.from >= u64::from(otype::FIRST_RESERVED) {
        return Ok(());
    }
    append(
        text,
        &[
            Text(name.as_str()),
            Text(" "),
            Hexadecimal(5, u128::from(range.from)),
            Text(" to "),
            Hexadecimal(5, range.to.min(u128::from(otype::FIRST_RESERVED))),
            Text("\n"),
        ],
    )
}

/// Appends the ranges that members open to a right, or that there is none.
pub(crate) fn append_ranges<C: CapRep>(
    text: &mut String,
    alloc: Global,
    symbols: &Symbols,
    members: &[Member<C>],
    right: Right,
) -> Result<(), AllocError>
    ensures { OnOk result (string_bytes text.new
        ≡ string_bytes text.old ++ ranges_text symbols.now right (seen_members C.value members.now)) }
{
    let found = ranges(alloc, members, right)?;
    let mut lines = String::new(alloc);
    for range in &found {
        append_range(&mut lines, symbols, right, *range)?;
    }
    append_or_none(text, right_name(right).as_str(), lines.as_str())
}
