//! The search for what is reachable through doors: it begins anew with what the doors that it found lead to, until it finds no more.
ghost use Rattle.std.specs.Prelude.{◌≡◌, map, IfOk, OnOk};
ghost use Rattle.reached.specs.declared.member.Member.{Member};
ghost use Rattle.reached.specs.Links.{values};
ghost use Rattle.reached.specs.Chain.{AreInOrder};
ghost use Rattle.reached.specs.Order.{seen_member, seen_members};
ghost use Rattle.doors.specs.Through.{AreReachableThroughDoors, AreLinkedThroughDoors};
ghost use Rattle.doors.specs.ThroughOrder.{is_open_at, open_doors, door_of, round, doors_in, members_through};

use crate::opening::opens;
use crate::start::{roots, specials};
use cap_bounds::CapRep;
use cap_rights::{is_sealed, opened};
use hart::Hart;
use reached::{Member, Place, closure};
use std::alloc::{AllocError, Global};

/// A door: where a sealed capability stands among the members, and where one that opens it does.
#[derive(Clone, Copy, Debug, PartialEq, Eq)]
pub struct Door {
    /// Where the sealed one stands. No two doors are at one place.
    pub sealed: Place,
    /// Where its key stands: for a sentry, which any key opens, its own place.
    pub key: Place,
}

/// What is reachable through doors.
#[derive(Drop)]
pub struct Through<C: CapRep> {
    /// The capabilities, each with its link. What a door leads to is a root after those of the state.
    pub members: Vec<Member<C>>,
    /// The doors, in the order in which they are opened: a root that one names is the state's, or what an earlier door leads to.
    pub doors: Vec<Door>,
}

/// Whether one of the doors is at this place.
fn is_open(doors: &[Door], place: Place) -> bool
    ensures { result ≡ is_open_at doors.now place }
{
    doors.iter().any(|door| door.sealed == place)
}

/// The door at a member, if a member opens it: a sentry itself, since any key does, and anything else the first that does.
fn door_at<C: CapRep>(members: &[Member<C>], member: &Member<C>) -> Option<Door>
    ensures { result ≡ door_of (seen_members C.value members.now) (seen_member C.value member.now) }
{
    let sealed = member.place;
    if opens(member.cap, member.cap) {
        return Some(Door {
            sealed,
            key: sealed,
        });
    }
    for key in members {
        if opens(member.cap, key.cap) {
            return Some(Door {
                sealed,
                key: key.place,
            });
        }
    }
    None
}

/// One round: opens the doors at members that are not open yet. What they lead to becomes roots.
fn open_doors<C: CapRep>(
    members: &[Member<C>],
    roots: &mut Vec<C>,
    doors: &mut Vec<Door>,
) -> Result<(), AllocError>
    ensures { OnOk result (open_doors doors.new.items (map C.value roots.new.items)
        ≡ round (seen_members C.value members.now) (seen_members C.value members.now)
        (open_doors doors.old.items (map C.value roots.old.items))) }
{
    for member in members {
        if !is_sealed(member.cap) || is_open(doors, member.place) {
            continue;
        }
        let Some(door) = door_at(members, member) else {
            continue;
        };
        roots.push(opened(member.cap))?;
        doors.push(door)?;
    }
    Ok(())
}

/// The capabilities that are reachable through doors in a hart's state, each with its link, and the doors that lead to them. The roots are
/// the 32 registers, PCC and DDC, and after these what each door leads to: root 34 + n is behind door n.
///
/// `AllocError` is out of memory.
pub fn closure_through_doors<C: CapRep>(
    alloc: Global,
    hart: &Hart<C>,
) -> Result<Through<C>, AllocError>
    ensures exact { IfOk result (λ found. AreReachableThroughDoors hart.now (values C.value found.members.items)) }
    ensures linked { IfOk result (λ found. AreLinkedThroughDoors C.value hart.now found.members.items found.doors.items) }
    ensures order { IfOk result (λ found. AreInOrder found.members.items) }
    ensures members { IfOk result (λ found. seen_members C.value found.members.items ≡ members_through hart.now) }
    ensures doors { IfOk result (λ found. found.doors.items ≡ doors_in hart.now) }
    ensures of_state { IfOk result (λ _. AreReachableThroughDoors hart.now (map (λ x. x.value) (members_through hart.now))) }
{
    let guarded = specials(alloc, hart)?;
    let mut starts = roots(alloc, hart)?;
    let mut doors = Vec::new(alloc);
    loop {
        let members = closure(alloc, &starts, &guarded, hart.memory())?;
        let before = doors.len();
        open_doors(&members, &mut starts, &mut doors)?;
        if doors.len() == before {
            return Ok(Through { members, doors });
        }
    }
}
