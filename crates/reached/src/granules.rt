//! The granules of RAM that a capability opens.
ghost use Rattle.std.specs.Prelude.{◌≡◌, ℕ, ◌+◌, ◌*◌, ◌≤◌, map, length, take, drop, All, OnOk, IfOk};
ghost use Rattle.base.specs.Ram.{ram_base};
ghost use Rattle.cap_rights.specs.Rights.{OpensGranule};
ghost use Rattle.reached.specs.Links.{IsMemberThrough};
ghost use Rattle.reached.specs.Reached.{HoldsCapabilities};
ghost use Rattle.reached.specs.Order.{seen_members};
ghost use Rattle.reached.specs.Findings.{AreFound, is_between, opens_granule};
ghost use Rattle.reached.specs.Search.{AreLeft, IsBare, IsBetween, IsOpened};

use crate::member::{Member, Place};
use crate::opens::opens_capabilities;
use crate::span::Span;
use base::ram;
use cap_bounds::CapRep;
use std::alloc::AllocError;
use tag_planes::{clear_tag, next_tag};
use tagged_memory::Memory;

/// Takes the tags that are left in a span, and appends what the granules hold to the members.
fn take_granules<C: CapRep>(
    members: &mut Vec<Member<C>>,
    left: &mut [u64],
    memory: &Memory,
    cap: C,
    from: usize,
    span: Span,
) -> Result<(), AllocError>
    requires capabilities { HoldsCapabilities memory.now }
    requires words { 16 * (64 * length left.old) ≡ length memory.now.bytes }
    requires tags { AreLeft memory.now left.old }
    requires within { span.end ≤ 64 * length left.old }
    requires opens { (g : ℕ) → IsBetween span.first span.end g → OpensGranule (C.value cap) (ram_base + 16 * g) }
    ensures kept { OnOk result (take (length members.old.items) members.new.items ≡ members.old.items) }
    ensures added { OnOk result (All (IsMemberThrough C.value memory.now (C.value cap) from)
        (drop (length members.old.items) members.new.items)) }
    ensures opened { OnOk result (IsOpened memory.now (C.value cap)
        (map (λ m. C.value m.cap) members.old.items) (map (λ m. C.value m.cap) members.new.items) left.old left.new
        (IsBetween span.first span.end)) }
    ensures found { OnOk result (AreFound memory.now from (seen_members C.value members.old.items) (seen_members C.value members.new.items)
        left.old left.new (is_between span.first span.end)) }
{
    memory.is_sound();
    let mut next = span.first;
    while next < span.end {
        let granule = next_tag(left, next);
        if granule >= span.end {
            return Ok(());
        }
        clear_tag(left, granule);
        let address = ram::BASE + 16 * granule as u64;
        let (word, tag) = memory.load_cap(address);
        members.push(Member {
            cap: C::from_word(word, tag),
            place: Place::Granule(address),
            from,
        })?;
        next = granule + 1;
    }
    Ok(())
}

/// Takes the tags that are left in the granules that a capability opens, appends what they hold to the members, and answers a span in
/// which no tag is left. Such a span is given, so that nothing is looked for in it.
pub(crate) fn open_granules<C: CapRep>(
    members: &mut Vec<Member<C>>,
    left: &mut [u64],
    memory: &Memory,
    cap: C,
    from: usize,
    bare: Span,
) -> Result<Span, AllocError>
    requires capabilities { HoldsCapabilities memory.now }
    requires words { 16 * (64 * length left.old) ≡ length memory.now.bytes }
    requires tags { AreLeft memory.now left.old }
    requires bare { IsBare bare.first bare.end left.old }
    ensures kept { OnOk result (take (length members.old.items) members.new.items ≡ members.old.items) }
    ensures added { OnOk result (All (IsMemberThrough C.value memory.now (C.value cap) from)
        (drop (length members.old.items) members.new.items)) }
    ensures opened { OnOk result (IsOpened memory.now (C.value cap)
        (map (λ m. C.value m.cap) members.old.items) (map (λ m. C.value m.cap) members.new.items) left.old left.new
        (λ g. OpensGranule (C.value cap) (ram_base + 16 * g))) }
    ensures found { OnOk result (AreFound memory.now from (seen_members C.value members.old.items) (seen_members C.value members.new.items)
        left.old left.new (opens_granule (C.value cap))) }
    ensures bare { IfOk result (λ span. IsBare span.first span.end left.new) }
{
    memory.is_sound();
    if !opens_capabilities(cap) {
        return Ok(bare);
    }
    let span = Span::of(64 * left.len(), cap);
    take_granules(members, left, memory, cap, from, bare.beside(span))?;
    Ok(bare.joined(span))
}
