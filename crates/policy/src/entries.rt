//! Where jumps through the seals of members lead.
ghost use Rattle.std.specs.Prelude.{◌≡◌, [], IfOk, OnOk, map};
ghost use Rattle.reached.specs.Links.{values};
ghost use Rattle.policy.specs.Rule.{entry};
ghost use Rattle.policy.specs.Opened.{entered_by, entries_with, entry_range, is_enterable, with_entry};

use crate::types::put_type;
use base::ram;
use cap_bounds::CapRep;
use cap_rights::{Permission, is_sealed, permits};
use reach::Range;
use reached::Member;
use std::alloc::{AllocError, Global};

/// Where a jump through its seal leads: its address, at a multiple of 4.
pub(crate) fn entry<C: CapRep>(c: C) -> u64
    ensures { result ≡ entry (C.value c) }
{
    c.address() / 4 * 4
}

/// Whether it is sealed, with Execute, and a jump through its seal leads to an instruction in RAM and in its bounds.
pub(crate) fn is_enterable<C: CapRep>(c: C) -> bool
    ensures { result ≡ is_enterable (C.value c) }
{
    let entry = entry(c);
    is_sealed(c)
        && permits(c, Permission::Execute)
        && ram::BASE <= entry
        && c.base() <= entry
        && u128::from(entry) + 4 <= c.top()
}

/// Puts where a jump through the seal of a capability leads among others, if it leads anywhere.
fn put_entry<C: CapRep>(entries: &mut Vec<u64>, cap: C) -> Result<(), AllocError>
    ensures { OnOk result (entries.new.items ≡ with_entry entries.old.items (C.value cap)) }
{
    if is_enterable(cap) {
        put_type(entries, entry(cap))
    } else {
        Ok(())
    }
}

/// Where jumps through the seals of members lead, ascending and each once.
fn entries_of<C: CapRep>(alloc: Global, members: &[Member<C>]) -> Result<Vec<u64>, AllocError>
    ensures { IfOk result (λ entries. entries.items ≡ entries_with [] (values C.value members.now)) }
{
    let mut entries = Vec::new(alloc);
    let mut number = 0;
    while number < members.len() {
        put_entry(&mut entries, members[number].cap)?;
        number += 1;
    }
    Ok(entries)
}

/// An address as the range of its byte.
fn entry_range(address: u64) -> Range
    ensures { result ≡ entry_range address }
{
    let to = u128::from(address) + 1;
    Range { from: address, to }
}

/// Each of some addresses as the range of its byte.
fn ranges_at(alloc: Global, entries: &[u64]) -> Result<Vec<Range>, AllocError>
    ensures { IfOk result (λ ranges. ranges.items ≡ map entry_range entries.now) }
{
    let mut ranges = Vec::new(alloc);
    for entry in entries {
        ranges.push(entry_range(*entry))?;
    }
    Ok(ranges)
}

/// Where jumps through the seals of members lead, each as the range of its first byte. `AllocError` is out of memory.
pub fn entered_by<C: CapRep>(alloc: Global, members: &[Member<C>]) -> Result<Vec<Range>, AllocError>
    ensures { IfOk result (λ ranges. ranges.items ≡ entered_by (values C.value members.now)) }
{
    let entries = entries_of(alloc, members)?;
    ranges_at(alloc, &entries)
}
