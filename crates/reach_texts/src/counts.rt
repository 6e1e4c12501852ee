//! How many members there are, and how many of each kind.
ghost use Rattle.std.specs.Prelude.{◌≡◌, ◌++◌, OnOk, string_bytes};
ghost use Rattle.reached.specs.Order.{seen_member, seen_members};
ghost use Rattle.reach_texts.specs.Summary.{count_line, count_of, door_count, is_of};

use crate::places::STATE_ROOTS;
use arrayvec::ArrayString;
use cap_bounds::CapRep;
use cap_rights::is_sealed;
use reach::Horizon;
use reached::{Member, Place};
use std::alloc::AllocError;
use texts::Piece::{Decimal, Text};
use texts::{append, text};

/// What members are counted by.
#[derive(Clone, Copy)]
pub(crate) enum Kind {
    /// Found in a general register, PCC or DDC.
    Register,
    /// Behind a door.
    Door,
    /// Found in a special register that Access_System_Registers guards.
    SpecialRegister,
    /// Found in a granule.
    Memory,
    /// Sealed, wherever it was found.
    Sealed,
}

/// Whether a member is of a kind.
fn is_of<C: CapRep>(member: &Member<C>, kind: Kind) -> bool
    ensures { result ≡ is_of kind (seen_member C.value member.now) }
{
    match kind {
        Kind::Register => matches!(member.place, Place::Root(n) if n < STATE_ROOTS),
        Kind::Door => matches!(member.place, Place::Root(n) if n >= STATE_ROOTS),
        Kind::SpecialRegister => matches!(member.place, Place::Special(_)),
        Kind::Memory => matches!(member.place, Place::Granule(_)),
        Kind::Sealed => is_sealed(member.cap),
    }
}

/// How many members are of a kind.
fn count_of<C: CapRep>(members: &[Member<C>], kind: Kind) -> u64
    ensures { result ≡ count_of kind (seen_members C.value members.now) }
{
    members.iter().filter(|member| is_of(*member, kind)).count() as u64
}

/// How many members are behind doors, where these are gone through.
#[tactic(auto, unfolding(crate::specs::Summary::door_count))]
fn door_count<C: CapRep>(members: &[Member<C>], horizon: Horizon) -> ArrayString<35>
    ensures { result.bytes ≡ door_count horizon (seen_members C.value members.now) }
{
    match horizon {
        Horizon::Stretch => ArrayString::new(),
        Horizon::Turn => text(&[
            Text(", behind doors "),
            Decimal(count_of(members, Kind::Door)),
        ]),
    }
}

/// Appends how many members there are, how many were found in registers, in special registers, in memory and behind doors, and how many are
/// sealed.
#[tactic(auto, unfolding(crate::specs::Summary::count_line), using(crate::proofs::Seen::seen_length))]
pub(crate) fn append_count<C: CapRep>(
    text: &mut String,
    members: &[Member<C>],
    horizon: Horizon,
) -> Result<(), AllocError>
    ensures { OnOk result (string_bytes text.new
        ≡ string_bytes text.old ++ count_line horizon (seen_members C.value members.now)) }
{
    let doors = door_count(members, horizon);
    append(
        text,
        &[
            Text("members "),
            Decimal(members.len() as u64),
            Text(": registers "),
            Decimal(count_of(members, Kind::Register)),
            Text(", special registers "),
            Decimal(count_of(members, Kind::SpecialRegister)),
            Text(", memory "),
            Decimal(count_of(members, Kind::Memory)),
            Text(doors.as_str()),
            Text(", sealed "),
            Decimal(count_of(members, Kind::Sealed)),
            Text("\n"),
        ],
    )
}
