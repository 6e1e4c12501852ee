//! The search.
ghost use Rattle.std.specs.Prelude.{◌≡◌, ℕ, ◌+◌, ◌<◌, Contains, map, IfOk, OnOk, vec_len};
ghost use Rattle.cap_bounds.specs.CapValue.{CapValue};
ghost use Rattle.reached.specs.Chain.{AreInOrder};
ghost use Rattle.reached.specs.Links.{AreLinked};
ghost use Rattle.reached.specs.Reached.{HoldsCapabilities, IsReachedFrom};
ghost use Rattle.reached.specs.Search.{IsSearch};
ghost use Rattle.reached.specs.Order.{members_of, seen_members};
ghost use Rattle.reached.specs.Findings.{IsFoundBehind, IsLeftBy};

use crate::granules::open_granules;
use crate::member::Member;
use crate::span::Span;
use crate::system::{add_tagged, open_system};
use cap_bounds::CapRep;
use std::alloc::{AllocError, Global};
use tagged_memory::Memory;

/// What the search has opened by now.
#[derive(Clone, Copy, Debug)]
struct Opened {
    /// Whether the special registers are among the members.
    system: bool,
    /// Granules of which no tag is left.
    bare: Span,
}

/// Looks through one member, and answers what has been opened by now.
fn visit<C: CapRep>(
    members: &mut Vec<Member<C>>,
    left: &mut [u64],
    memory: &Memory,
    roots: &[C],
    specials: &[C],
    opened: Opened,
    index: usize,
) -> Result<Opened, AllocError>
    requires capabilities { HoldsCapabilities memory.now }
    requires search { IsSearch (map C.value roots.now) (map C.value specials.now) memory.now
        (map (λ m. C.value m.cap) members.old.items) left.old opened.system opened.bare.first opened.bare.end index }
    requires linked { AreLinked C.value (map C.value roots.now) (map C.value specials.now) memory.now members.old.items }
    requires left { IsLeftBy (map C.value specials.now) memory.now (seen_members C.value members.old.items) left.old opened.system }
    requires some { index < vec_len members.old }
    ensures found { OnOk result (IsFoundBehind (map C.value specials.now) memory.now (seen_members C.value members.old.items) index
        (seen_members C.value members.new.items)) }
    ensures left { IfOk result (λ now.
        IsLeftBy (map C.value specials.now) memory.now (seen_members C.value members.new.items) left.new now.system) }
    ensures linked { OnOk result (AreLinked C.value (map C.value roots.now) (map C.value specials.now) memory.now members.new.items) }
    ensures search { IfOk result (λ now. IsSearch (map C.value roots.now) (map C.value specials.now) memory.now
        (map (λ m. C.value m.cap) members.new.items) left.new now.system now.bare.first now.bare.end (index + 1)) }
{
    memory.is_sound();
    let cap = members[index].cap;
    let system = open_system(members, specials, cap, opened.system, index)?;
    let bare = open_granules(members, left, memory, cap, index, opened.bare)?;
    Ok(Opened { system, bare })
}

/// The capabilities that are reachable from these roots, over these special registers and this memory, each with where it was found, in
/// the order in which they are found.
/// `Err` is out of memory.
pub fn closure<C: CapRep>(
    alloc: Global,
    roots: &[C],
    specials: &[C],
    memory: &Memory,
) -> Result<Vec<Member<C>>, AllocError>
    requires capabilities { HoldsCapabilities memory.now }
    ensures members { IfOk result (λ members.
        seen_members C.value members.items ≡ members_of (map C.value roots.now) (map C.value specials.now) memory.now) }
    ensures linked { IfOk result (λ members.
        AreLinked C.value (map C.value roots.now) (map C.value specials.now) memory.now members.items) }
    ensures order { IfOk result (λ members. AreInOrder members.items) }
    ensures sound { IfOk result (λ members. (v : CapValue) → Contains (map (λ m. C.value m.cap) members.items) v
        → IsReachedFrom (map C.value roots.now) (map C.value specials.now) memory.now v) }
    ensures complete { IfOk result (λ members. (v : CapValue)
        → IsReachedFrom (map C.value roots.now) (map C.value specials.now) memory.now v
        → Contains (map (λ m. C.value m.cap) members.items) v) }
{
    memory.is_sound();
    let mut left = Vec::from_slice(alloc, memory.planes())?;
    let mut members = Vec::new(alloc);
    add_tagged(&mut members, roots, false, 0)?;
    let mut opened = Opened {
        system: false,
        bare: Span { first: 0, end: 0 },
    };
    let mut index = 0;
    while index < members.len() {
        opened = visit(
            &mut members,
            &mut left,
            memory,
            roots,
            specials,
            opened,
            index,
        )?;
        index += 1;
    }
    Ok(members)
}
