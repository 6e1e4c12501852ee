//! The capabilities that stand in registers.
ghost use Rattle.std.specs.Prelude.{◌≡◌, ◌++◌, All, true, map, filter, take, drop, length, if◌then◌else◌, IfOk, OnOk};
ghost use Rattle.cap_bounds.specs.CapValue.{is_tagged};
ghost use Rattle.cap_rights.specs.Rights.{OpensSystem};
ghost use Rattle.reached.specs.Links.{IsAmong};
ghost use Rattle.reached.specs.Search.{IsSystemOpened};
ghost use Rattle.reached.specs.Order.{among, seen_members, tagged_from};
ghost use Rattle.reached.specs.Findings.{IsSystemFound};

use crate::member::{Member, Place};
use cap_bounds::CapRep;
use cap_rights::opens_system;
use std::alloc::AllocError;

/// The place of this number among the roots or the special registers.
fn place_among(special: bool, number: usize) -> Place
    ensures { result ≡ (if special then Place.Special number else Place.Root number) }
{
    if special {
        Place::Special(number)
    } else {
        Place::Root(number)
    }
}

/// Appends the tagged ones of some capabilities to the members.
pub(crate) fn add_tagged<C: CapRep>(
    members: &mut Vec<Member<C>>,
    caps: &[C],
    special: bool,
    from: usize,
) -> Result<(), AllocError>
    ensures kept { OnOk result (take (length members.old.items) members.new.items ≡ members.old.items) }
    ensures added { OnOk result (All (IsAmong C.value (map C.value caps.now) special from)
        (drop (length members.old.items) members.new.items)) }
    ensures values { OnOk result (map (λ m. C.value m.cap) members.new.items
        ≡ map (λ m. C.value m.cap) members.old.items ++ filter is_tagged (map C.value caps.now)) }
    ensures found { OnOk result (seen_members C.value members.new.items
        ≡ seen_members C.value members.old.items ++ tagged_from (among special) from 0 (map C.value caps.now)) }
{
    for (number, cap) in caps.iter().enumerate() {
        if !cap.tag() {
            continue;
        }
        members.push(Member {
            cap: *cap,
            place: place_among(special, number),
            from,
        })?;
    }
    Ok(())
}

/// Appends the tagged special registers to the members, if the capability opens them and they aren't there, and answers whether they are.
pub(crate) fn open_system<C: CapRep>(
    members: &mut Vec<Member<C>>,
    specials: &[C],
    cap: C,
    opened: bool,
    from: usize,
) -> Result<bool, AllocError>
    ensures kept { OnOk result (take (length members.old.items) members.new.items ≡ members.old.items) }
    ensures added { OnOk result (All (λ x. OpensSystem (C.value cap) × IsAmong C.value (map C.value specials.now) true from x)
        (drop (length members.old.items) members.new.items)) }
    ensures opened { IfOk result (IsSystemOpened (C.value cap) (map C.value specials.now)
        (map (λ m. C.value m.cap) members.old.items) opened (map (λ m. C.value m.cap) members.new.items)) }
    ensures found { IfOk result (IsSystemFound (C.value cap) (map C.value specials.now) from (seen_members C.value members.old.items)
        (seen_members C.value members.new.items) opened) }
{
    if opened || !opens_system(cap) {
        return Ok(opened);
    }
    add_tagged(members, specials, true, from)?;
    Ok(true)
}
