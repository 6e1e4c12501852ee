//! The way from a root to a member.
ghost use Rattle.std.specs.Prelude.{◌≡◌, ◌<◌, length, List, IfOk};
ghost use Rattle.cap_bounds.specs.CapValue.{CapValue};
ghost use Rattle.tagged_memory.specs.Memory.{Memory};
ghost use Rattle.reached.specs.Links.{AreLinked};
ghost use Rattle.reached.specs.Chain.{is_root, AreInOrder, IsChain, LinksOpen};
ghost use Rattle.reached.specs.Order.{chain_of, seen_members};

use crate::member::{Member, Place};
use cap_bounds::CapRep;
use std::alloc::{AllocError, Global};

/// Whether a member was found among the roots.
fn is_root(place: Place) -> bool
    ensures { result ≡ is_root place }
{
    matches!(place, Place::Root(_))
}

/// The numbers of the members that lead to a member: a root first, each one opens the next, and the member is the last.
/// `Err` is out of memory.
pub fn chain<C: CapRep>(
    alloc: Global,
    members: &[Member<C>],
    index: usize,
) -> Result<Vec<usize>, AllocError>
    requires some { index < length members.now }
    requires order { AreInOrder members.now }
    ensures way { IfOk result (λ way. way.items ≡ chain_of (seen_members C.value members.now) index) }
    ensures chain { IfOk result (λ way. IsChain members.now index way.items) }
    ensures opens { IfOk result (λ way. (roots specials : List CapValue) (m : Memory)
        → AreLinked C.value roots specials m members.now → LinksOpen C.value members.now way.items) }
{
    let mut way = Vec::new(alloc);
    way.push(index)?;
    let mut last = index;
    while !is_root(members[last].place) {
        last = members[last].from;
        way.push(last)?;
    }
    way.reverse();
    Ok(way)
}
