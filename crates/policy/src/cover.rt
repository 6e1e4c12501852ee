//! Whether ranges hold addresses, and share them.
ghost use Rattle.std.specs.Prelude.{◌≡◌, ◌↔◌, ℕ, ◌<◌, ◌≤◌, IsTrue, false};
ghost use Rattle.reach.specs.Ranges.{IsInOne};
ghost use Rattle.policy.specs.Cover.{HasGap, IsSomeEndOut, Overlap, OverlapsOne, ShareSome, ShareNone};

use reach::Range;

/// Whether an address lies in one of the ranges.
pub(crate) fn holds(ranges: &[Range], address: u128) -> bool
    ensures { IsTrue result ↔ IsInOne ranges.now address }
{
    ranges.iter().any(|range| u128::from(range.from) <= address && address < range.to)
}

/// Whether a range that ends from `from` on and below `to` leaves an address there: the one where it ends, if no other holds it.
fn leaves_end(ranges: &[Range], from: u128, to: u128) -> bool
    ensures { IsTrue result ↔ IsSomeEndOut ranges.now from to }
{
    ranges.iter().any(|range| from <= range.to && range.to < to && !holds(ranges, range.to))
}

/// Whether every address from `from` on and below `to` lies in one of the ranges: the first one does, and so does each where a range ends.
pub(crate) fn covers(ranges: &[Range], from: u128, to: u128) -> bool
    ensures all { IsTrue result → (a : ℕ) → from ≤ a → a < to → IsInOne ranges.now a }
    ensures gap { result ≡ false → HasGap ranges.now from to }
{
    to <= from || holds(ranges, from) && !leaves_end(ranges, from, to)
}

/// Whether two ranges share an address.
fn overlap(x: &Range, y: &Range) -> bool
    ensures { IsTrue result ↔ Overlap x.now y.now }
{
    u128::from(x.from.max(y.from)) < x.to.min(y.to)
}

/// Whether one shares an address with one of these.
fn overlaps_one(x: &Range, ys: &[Range]) -> bool
    ensures { IsTrue result ↔ OverlapsOne x.now ys.now }
{
    ys.iter().any(|y| overlap(x, y))
}

/// Whether one of the first does.
fn share_some(xs: &[Range], ys: &[Range]) -> bool
    ensures { IsTrue result ↔ ShareSome xs.now ys.now }
{
    xs.iter().any(|x| overlaps_one(x, ys))
}

/// Whether no address lies in ranges of both.
pub(crate) fn share_none(xs: &[Range], ys: &[Range]) -> bool
    ensures { IsTrue result → ShareNone xs.now ys.now }
{
    !share_some(xs, ys)
}
