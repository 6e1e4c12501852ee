//! The ranges that members open, merged.
ghost use Rattle.std.specs.Prelude.{◌≡◌, ◌↔◌, ◌⊎◌, ℕ, ◌<◌, ◌≤◌, IfOk, OnOk, IfNone, IfSome, IsTrue};
ghost use Rattle.std.specs.List.Sorted.{IsNonDecreasingBy};
ghost use Rattle.reached.specs.Links.{values};
ghost use Rattle.reach.specs.Opens.{Opens};
ghost use Rattle.reach.specs.Ranges.{IsIn, IsInOne, IsOpen, AreFilled, AreApart, ranges_of};
ghost use Rattle.reach.specs.Merging.{AreBegunBy, LastReaches};

use crate::question::allows;
use crate::range::Range;
use crate::reach::Reach;
use crate::right::Right;
use cap_bounds::CapRep;
use reached::Member;
use std::alloc::{AllocError, Global};

/// The addresses that a capability opens to a right, or `None` where it opens none.
fn range_of<C: CapRep>(c: C, right: Right) -> Option<Range>
    ensures some { IfSome result (λ range. (a : ℕ) → IsIn range a ↔ Opens right (C.value c) a) }
    ensures filled { IfSome result (λ range. range.from < range.to) }
    ensures none { IfNone result ((a : ℕ) → Opens right (C.value c) a → ⊥) }
{
    let from = c.base();
    let to = c.top();
    if allows(c, right) && u128::from(from) < to {
        Some(Range { from, to })
    } else {
        None
    }
}

/// The ranges that members open, one a member, in the members' order.
fn opened<C: CapRep>(
    alloc: Global,
    members: &[Member<C>],
    right: Right,
) -> Result<Vec<Range>, AllocError>
    ensures filled { IfOk result (λ ranges. AreFilled ranges.items) }
    ensures same { IfOk result (λ ranges. (a : ℕ) → IsInOne ranges.items a ↔ IsOpen right (values C.value members.now) a) }
{
    let mut ranges = Vec::new(alloc);
    for member in members {
        let Some(range) = range_of(member.cap, right) else {
            continue;
        };
        ranges.push(range)?;
    }
    Ok(ranges)
}

/// Whether the last range ends at an address or above it.
fn last_reaches(ranges: &[Range], address: u64) -> bool
    ensures { IsTrue result ↔ LastReaches ranges.now address }
{
    let count = ranges.len();
    count > 0 && u128::from(address) <= ranges[count - 1].to
}

/// Adds a range that doesn't begin before the others: the last one grows by it where it reaches so far, else it is one more.
fn add_range(ranges: &mut Vec<Range>, range: Range) -> Result<(), AllocError>
    requires apart { AreApart ranges.old.items }
    requires begun { AreBegunBy range.from ranges.old.items }
    requires filled { range.from < range.to }
    ensures apart { OnOk result (AreApart ranges.new.items) }
    ensures begun { OnOk result (AreBegunBy range.from ranges.new.items) }
    ensures same { OnOk result ((a : ℕ) → IsInOne ranges.new.items a ↔ (IsInOne ranges.old.items a ⊎ IsIn range a)) }
{
    if last_reaches(ranges, range.from) {
        let last = ranges.len() - 1;
        let to = ranges[last].to.max(range.to);
        ranges[last].to = to;
        return Ok(());
    }
    ranges.push(range)?;
    Ok(())
}

/// Ranges in the order of their beginnings, merged.
fn merged(alloc: Global, ranges: &[Range]) -> Result<Vec<Range>, AllocError>
    requires filled { AreFilled ranges.now }
    requires ascending { IsNonDecreasingBy (λ range. range.from) ranges.now }
    ensures apart { IfOk result (λ found. AreApart found.items) }
    ensures same { IfOk result (λ found. (a : ℕ) → IsInOne found.items a ↔ IsInOne ranges.now a) }
{
    let mut found = Vec::new(alloc);
    for range in ranges {
        add_range(&mut found, *range)?;
    }
    Ok(found)
}

/// The numbers that members open to a right, as ranges: ascending, none empty, and each apart from the next.
///
/// `AllocError` is out of memory.
pub fn ranges<C: CapRep>(
    alloc: Global,
    members: &[Member<C>],
    right: Right,
) -> Result<Vec<Range>, AllocError>
    ensures apart { IfOk result (λ ranges. AreApart ranges.items) }
    ensures same { IfOk result (λ ranges. (a : ℕ) → IsInOne ranges.items a ↔ IsOpen right (values C.value members.now) a) }
    ensures exact { IfOk result (λ ranges. ranges.items ≡ ranges_of right (values C.value members.now)) }
{
    let mut ranges = opened(alloc, members, right)?;
    ranges.sort_unstable_by_key(|range| range.from);
    let found = merged(alloc, &ranges)?;
    Ok(found)
}

impl<C: CapRep> Reach<C> {
    /// The numbers that members open to a right, addresses or object types, as ranges: ascending, none empty, and each apart from the
    /// next.
    ///
    /// `AllocError` is out of memory.
    pub fn ranges(&self, alloc: Global, right: Right) -> Result<Vec<Range>, AllocError>
        ensures apart { IfOk result (λ ranges. AreApart ranges.items) }
        ensures same { IfOk result (λ ranges. (a : ℕ) → IsInOne ranges.items a ↔ IsOpen right (values C.value self.now) a) }
        ensures exact { IfOk result (λ ranges. ranges.items ≡ ranges_of right (values C.value self.now)) }
    {
        ranges(alloc, self.members(), right)
    }
}
