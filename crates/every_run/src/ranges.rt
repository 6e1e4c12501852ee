//! Addresses and ranges.
ghost use Rattle.std.specs.Prelude.{◌≡◌, ◌↔◌, IsTrue};
ghost use Rattle.reach.specs.Ranges.{IsInOne};
ghost use Rattle.every_run.specs.Known.{TouchesOne};

use reach::Range;

/// Whether an address lies in one of the ranges.
pub(crate) fn holds(ranges: &[Range], address: u64) -> bool
    ensures { IsTrue result ↔ IsInOne ranges.now address }
{
    ranges.iter().any(|range| range.from <= address && u128::from(address) < range.to)
}

/// Whether one of `size` bytes from an address lies in one of the ranges, none of which is empty.
pub(crate) fn touches(ranges: &[Range], address: u64, size: u64) -> bool
    ensures { IsTrue result ↔ TouchesOne ranges.now address size }
{
    let end = u128::from(address) + u128::from(size);
    ranges.iter().any(|range| u128::from(range.from) < end && u128::from(address) < range.to)
}
