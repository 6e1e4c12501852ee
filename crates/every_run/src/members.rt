//! All that code can come to hold from a state on, for ever: through its traps and the doors that it can open, too.
ghost use Rattle.std.specs.Prelude.{◌≡◌, ◌++◌, Contains, map, IfNone, IfOk, IfSome, IsTrue};
ghost use Rattle.cap_bounds.specs.CapValue.{CapValue};
ghost use Rattle.cap_rights.specs.Opened as spec;
ghost use Rattle.reached.specs.Links.{values};
ghost use Rattle.doors.specs.Closed.{HasDoors, IsOpenedBy};
ghost use Rattle.doors.specs.Roots.{roots_of, specials_of};
ghost use Rattle.every_run.specs.Members.{HoldAll};

use cap_bounds::CapRep;
use cap_rights::{equal_exact, opened};
use doors::{opens, roots, specials};
use hart::Hart;
use reached::{Member, closure};
use std::alloc::{AllocError, Global};

/// How many capabilities behind doors are followed at most.
const MOST_DOORS: u32 = 4096;

/// Whether a capability is a member.
pub(crate) fn is_member<C: CapRep>(members: &[Member<C>], cap: C) -> bool
    ensures { IsTrue result → Contains (values C.value members.now) (C.value cap) }
{
    for member in members {
        if equal_exact(member.cap, cap) {
            return true;
        }
    }
    false
}

/// Whether what a capability is without its seal is a member, if a member opens it.
fn has_behind<C: CapRep>(members: &[Member<C>], cap: C) -> bool
    ensures { IsTrue result → (key : CapValue) → Contains (values C.value members.now) key → IsOpenedBy (C.value cap) key
        → Contains (values C.value members.now) (spec.opened (C.value cap)) }
{
    if is_member(members, opened(cap)) {
        return true;
    }
    for key in members {
        if opens(cap, key.cap) {
            return false;
        }
    }
    true
}

/// What the first door leads to whose other side is no member.
fn missing<C: CapRep>(members: &[Member<C>]) -> Option<C>
    ensures { IfNone result (HasDoors (Contains (values C.value members.now))) }
{
    for member in members {
        if !has_behind(members, member.cap) {
            return Some(opened(member.cap));
        }
    }
    None
}

/// Where a search begins whose code a trap doesn't leave: the 32 registers, PCC and DDC, and what a trap makes PCC or leaves to code: MTCC,
/// MTDC, MScratchC, MEPCC.
pub(crate) fn all_roots<C: CapRep>(alloc: Global, hart: &Hart<C>) -> Result<Vec<C>, AllocError>
    ensures { IfOk result (λ found. map C.value found.items ≡ roots_of hart.now ++ specials_of hart.now.scrs) }
{
    let mut found = roots(alloc, hart)?;
    let guarded = specials(alloc, hart)?;
    found.extend_from_slice(&guarded)?;
    Ok(found)
}

/// All that a search from these capabilities leads to: what any of them opens, and what its doors lead to; or `None` where there are too
/// many doors.
pub(crate) fn all_held<C: CapRep>(
    alloc: Global,
    hart: &Hart<C>,
    begin: &[C],
) -> Result<Option<Vec<Member<C>>>, AllocError>
    ensures { IfOk result (λ found. IfSome found (λ members.
        HoldAll (values C.value members.items) (map C.value begin.now) hart.now.memory)) }
{
    let mut starts = Vec::new(alloc);
    starts.extend_from_slice(begin)?;
    let none: Vec<C> = Vec::new(alloc);
    for _ in 0..MOST_DOORS {
        let members = closure(alloc, &starts, &none, hart.memory())?;
        let Some(behind) = missing(&members) else {
            return Ok(Some(members));
        };
        starts.push(behind)?;
    }
    Ok(None)
}
