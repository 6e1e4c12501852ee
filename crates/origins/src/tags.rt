//! What the tag of a value that a step makes hangs on.
ghost use Rattle.std.specs.Prelude.{◌≡◌, ◌||◌, ◌==◌, not, nat_le, IfOk, [], ◌∷◌};
ghost use Rattle.cap_bounds.specs.CapValue.{is_tagged, value_address};
ghost use Rattle.cap_checks.specs.FirstFault as checks;
ghost use Rattle.cap_rights.specs.Permission.{permits};
ghost use Rattle.cap_rights.specs.ObjectType.{greatest_sealing_type};
ghost use Rattle.special_regs.specs.Traps as traps;
ghost use Rattle.tagged_memory.specs.Memory.{has_tag};
ghost use Rattle.origins.specs.Kept.{AreThere};
ghost use Rattle.origins.specs.Places as places;
ghost use Rattle.origins.specs.Tags as spec;

use crate::holding::held;
use crate::making::Making;
use crate::place::Place;
use crate::tag_question::{TagCondition, TagQuestion};
use base::{otype, scr};
use cap_bounds::{CapRep, is_exact};
use cap_rights::{Permission, is_sealed, opened, permits};
use machine::Machine;
use std::alloc::{AllocError, Global};

/// The greatest address that names a type to seal with.
const GREATEST_SEALING_TYPE: u64 = otype::FIRST_RESERVED as u64 - 1;

/// A condition.
fn if_so(question: TagQuestion, holds: bool) -> TagCondition
    ensures { result ≡ spec.if_so question holds }
{
    TagCondition { question, holds }
}

/// Whether the value is a tagged sentry.
#[tactic(auto, unfolding(special_regs::specs::Traps::is_sentry))]
fn is_sentry<C: CapRep>(c: C) -> bool
    ensures { result ≡ traps.is_sentry (C.value c) }
{
    c.tag() && c.otype() == otype::SENTRY
}

/// Whether the representable window of a capability, sealed or not, holds an address.
#[tactic(auto, unfolding(cap_bounds::specs::SetAddress::at_address, cap_rights::specs::Opened::opened))]
fn in_window<C: CapRep>(c: C, address: u64) -> bool
    ensures { result ≡ spec.in_window (C.value c) address }
{
    opened(c).set_address(address).tag()
}

/// That the value is tagged.
fn tag_of<C: CapRep>(place: Place, c: C) -> TagCondition
    ensures { result ≡ spec.tag_of place (C.value c) }
{
    if_so(TagQuestion::Tag(place), c.tag())
}

/// That it is unsealed.
fn unsealed<C: CapRep>(place: Place, c: C) -> TagCondition
    ensures { result ≡ spec.unsealed place (C.value c) }
{
    if_so(TagQuestion::Seal(place), !is_sealed(c))
}

/// That its window holds an address.
fn window_of<C: CapRep>(place: Place, c: C, address: u64) -> TagCondition
    ensures { result ≡ spec.window_of place (C.value c) address }
{
    if_so(
        TagQuestion::Window { place, address },
        in_window(c, address),
    )
}

/// That its bounds hold so many bytes from its address.
#[tactic(auto, unfolding(cap_checks::specs::FirstFault::holds))]
fn bytes_of<C: CapRep>(place: Place, c: C, size: u64) -> TagCondition
    ensures { result ≡ spec.bytes_of place (C.value c) size }
{
    let address = c.address();
    let question = TagQuestion::Bounds {
        place,
        address,
        size,
    };
    if_so(question, c.holds(address, size))
}

/// That it has a permission.
fn permit<C: CapRep>(place: Place, c: C, permission: Permission) -> TagCondition
    ensures { result ≡ spec.if_so (TagQuestion.Permit place permission) (permits (C.value c) permission) }
{
    if_so(
        TagQuestion::Permit { place, permission },
        permits(c, permission),
    )
}

/// What is asked where an address is set.
fn moved_asked<C: CapRep>(
    alloc: Global,
    place: Place,
    c: C,
    address: u64,
) -> Result<Vec<TagCondition>, AllocError>
    ensures { IfOk result (λ list. list.items ≡ spec.moved_asked place (C.value c) address) }
{
    let asked = [
        tag_of(place, c),
        unsealed(place, c),
        window_of(place, c, address),
    ];
    Vec::from_slice(alloc, &asked)
}

/// What is asked where bounds are set.
fn bounded_asked<C: CapRep>(
    alloc: Global,
    place: Place,
    c: C,
    length: u64,
) -> Result<Vec<TagCondition>, AllocError>
    ensures { IfOk result (λ list. list.items ≡ spec.bounded_asked place (C.value c) length) }
{
    let asked = [
        tag_of(place, c),
        unsealed(place, c),
        bytes_of(place, c, length),
    ];
    Vec::from_slice(alloc, &asked)
}

/// What is asked where bounds are set exactly.
fn bounded_exactly_asked<C: CapRep>(
    alloc: Global,
    place: Place,
    c: C,
    length: u64,
) -> Result<Vec<TagCondition>, AllocError>
    ensures { IfOk result (λ list. list.items ≡ spec.bounded_exactly_asked place (C.value c) length) }
{
    let address = c.address();
    let exact = TagQuestion::Exact { address, length };
    let asked = [
        tag_of(place, c),
        unsealed(place, c),
        bytes_of(place, c, length),
        if_so(exact, is_exact(address, length)),
    ];
    Vec::from_slice(alloc, &asked)
}

/// What is asked where permissions or the flag are set.
fn kept_asked<C: CapRep>(alloc: Global, place: Place, c: C) -> Result<Vec<TagCondition>, AllocError>
    ensures { IfOk result (λ list. list.items ≡ spec.kept_asked place (C.value c)) }
{
    Vec::from_slice(alloc, &[tag_of(place, c), unsealed(place, c)])
}

/// What is asked where a value is sealed.
fn sealed_asked<C: CapRep>(
    alloc: Global,
    place: Place,
    c: C,
    authority: Place,
    a: C,
) -> Result<Vec<TagCondition>, AllocError>
    ensures { IfOk result (λ list. list.items ≡ spec.sealed_asked place (C.value c) authority (C.value a)) }
{
    let small = a.address() <= GREATEST_SEALING_TYPE;
    let asked = [
        tag_of(place, c),
        tag_of(authority, a),
        unsealed(place, c),
        unsealed(authority, a),
        permit(authority, a, Permission::Seal),
        bytes_of(authority, a, 1),
        if_so(TagQuestion::Type(authority), small),
    ];
    Vec::from_slice(alloc, &asked)
}

/// What is asked where a value is unsealed.
fn unsealed_asked<C: CapRep>(
    alloc: Global,
    place: Place,
    c: C,
    authority: Place,
    a: C,
) -> Result<Vec<TagCondition>, AllocError>
    ensures { IfOk result (λ list. list.items ≡ spec.unsealed_asked place (C.value c) authority (C.value a)) }
{
    let otype = u64::from(c.otype());
    let asked = [
        tag_of(place, c),
        tag_of(authority, a),
        if_so(TagQuestion::Seal(place), otype <= GREATEST_SEALING_TYPE),
        unsealed(authority, a),
        permit(authority, a, Permission::Unseal),
        bytes_of(authority, a, 1),
        if_so(TagQuestion::Type(authority), a.address() == otype),
    ];
    Vec::from_slice(alloc, &asked)
}

/// What is asked where a value is sealed as an entry.
fn entry_asked<C: CapRep>(
    alloc: Global,
    place: Place,
    c: C,
) -> Result<Vec<TagCondition>, AllocError>
    ensures { IfOk result (λ list. list.items ≡ spec.entry_asked place (C.value c)) }
{
    let asked = [
        tag_of(place, c),
        unsealed(place, c),
        permit(place, c, Permission::Execute),
    ];
    Vec::from_slice(alloc, &asked)
}

/// What is asked of a link, which is PCC's at an address.
fn linked_asked<C: CapRep>(
    alloc: Global,
    c: C,
    address: u64,
) -> Result<Vec<TagCondition>, AllocError>
    ensures { IfOk result (λ list. list.items ≡ spec.linked_asked (C.value c) address) }
{
    let pcc = Place::Special(scr::PCC);
    let asked = [
        tag_of(pcc, c),
        unsealed(pcc, c),
        window_of(pcc, c, address),
        permit(pcc, c, Permission::Execute),
    ];
    Vec::from_slice(alloc, &asked)
}

/// What is asked of PCC after a jump.
fn entered_asked<C: CapRep>(
    alloc: Global,
    place: Place,
    c: C,
    address: u64,
) -> Result<Vec<TagCondition>, AllocError>
    ensures { IfOk result (λ list. list.items ≡ spec.entered_asked place (C.value c) address) }
{
    Vec::from_slice(alloc, &[tag_of(place, c), window_of(place, c, address)])
}

/// What is asked of PCC after a trap or a return.
fn resumed_asked<C: CapRep>(
    alloc: Global,
    place: Place,
    c: C,
    address: u64,
) -> Result<Vec<TagCondition>, AllocError>
    ensures { IfOk result (λ list. list.items ≡ spec.resumed_asked place (C.value c) address) }
{
    if c.address() == address {
        return Vec::from_slice(alloc, &[tag_of(place, c)]);
    }
    let asked = [
        tag_of(place, c),
        if_so(TagQuestion::Seal(place), !is_sealed(c) || is_sentry(c)),
        window_of(place, c, address),
    ];
    Vec::from_slice(alloc, &asked)
}

/// Whether a granule is tagged.
fn is_tagged_at<C: CapRep>(machine: &Machine<C>, address: u64) -> bool
    requires { places.IsThere (Place.Granule address) machine.now }
    ensures { result ≡ has_tag machine.now.memory address }
{
    held(machine, Place::Granule(address)).tag()
}

/// What is asked where a granule is loaded.
fn loaded_asked<C: CapRep>(
    alloc: Global,
    machine: &Machine<C>,
    address: u64,
    authority: Place,
    a: C,
) -> Result<Vec<TagCondition>, AllocError>
    requires { places.IsThere (Place.Granule address) machine.now }
    ensures { IfOk result (λ list. list.items ≡ spec.loaded_asked address authority (C.value a) machine.now) }
{
    let tagged = is_tagged_at(machine, address);
    let asked = [
        if_so(TagQuestion::Tag(Place::Granule(address)), tagged),
        permit(authority, a, Permission::LoadCapability),
    ];
    Vec::from_slice(alloc, &asked)
}

/// One condition.
fn one(alloc: Global, asked: TagCondition) -> Result<Vec<TagCondition>, AllocError>
    ensures { IfOk result (λ list. list.items ≡ asked ∷ []) }
{
    Vec::from_slice(alloc, &[asked])
}

/// What the tag of a value that is made in a way hangs on, in order, with the answers before the step.
///
/// # Errors
///
/// Out of memory.
#[tactic(auto, unfolding(crate::specs::Tags::tag_asked))]
pub fn tag_asked<C: CapRep>(
    alloc: Global,
    machine: &Machine<C>,
    making: Making,
) -> Result<Vec<TagCondition>, AllocError>
    requires { AreThere making machine.now }
    ensures { IfOk result (λ list. list.items ≡ spec.tag_asked making machine.now) }
{
    match making {
        Making::Number => one(alloc, if_so(TagQuestion::Capability, false)),
        Making::Cleared(_) => one(alloc, if_so(TagQuestion::Kept, false)),
        Making::Copied(from) => one(alloc, tag_of(from, held(machine, from))),
        Making::Opened(from) => one(alloc, tag_of(from, held(machine, from))),
        Making::Loaded { address, authority } => {
            loaded_asked(alloc, machine, address, authority, held(machine, authority))
        }
        Making::Moved { from, address } => {
            moved_asked(alloc, from, held(machine, from), address)
        }
        Making::Bounded { from, length } => {
            bounded_asked(alloc, from, held(machine, from), length)
        }
        Making::BoundedExactly { from, length } => {
            bounded_exactly_asked(alloc, from, held(machine, from), length)
        }
        Making::Restricted { from, .. } => kept_asked(alloc, from, held(machine, from)),
        Making::Flagged { from, .. } => kept_asked(alloc, from, held(machine, from)),
        Making::Sealed { from, authority } => {
            let a = held(machine, authority);
            sealed_asked(alloc, from, held(machine, from), authority, a)
        }
        Making::Unsealed { from, authority } => {
            let a = held(machine, authority);
            unsealed_asked(alloc, from, held(machine, from), authority, a)
        }
        Making::SealedEntry(from) => entry_asked(alloc, from, held(machine, from)),
        Making::Linked { address } => {
            linked_asked(alloc, held(machine, Place::Special(scr::PCC)), address)
        }
        Making::Entered { from, address } => {
            entered_asked(alloc, from, held(machine, from), address)
        }
        Making::Resumed { from, address } => {
            resumed_asked(alloc, from, held(machine, from), address)
        }
    }
}
