//! Pasts: the bytes of an image, and what a machine was given since its opening state.

ghost use Rattle.std.specs.Prelude.{◌≡◌, ◌+◌, ◌^◌, ◌<◌, ◌≤◌, ◌++◌, ◌∷◌, ◌⊎◌, [], None, Some, IfSome, IfOk, IfErr, OnOk, map};
ghost use Rattle.past.specs.Given.{count_of, count_of_one, state_at};
ghost use Rattle.past.specs.declared.given.Given.{Given as Gave};
ghost use Rattle.cherisim_c.specs.Pasts.{IsNoPast, IsPast, IsPastRefusal, IsTakenBack, IsBackRefusal, given_of};
ghost use Rattle.cherisim_c.specs.Status.{no_memory, out_of_range};

use crate::life::image_of_bytes;
use crate::status::{NO_MEMORY, RANGE, status_of_image};
use crate::types::Noted;
use image::Image;
use machine::Machine;
use past::{Given, Past};
use std::alloc::Global;
use word_cap::WordCap;

/// What C says that a machine was given, if that can be given.
#[tactic(auto, unfolding(crate::specs::Pasts::given_of))]
fn given_of(noted: Noted) -> Option<Given>
    ensures { result ≡ given_of noted }
{
    let Noted { number, kind } = noted;
    if kind == 0 {
        Some(Given::Steps(number))
    } else if kind == 1 {
        Some(Given::Ticks(number))
    } else if kind == 2 && number < 256 {
        Some(Given::Byte(number as u8))
    } else {
        None
    }
}

/// How many events these are.
fn count_of(given: Given) -> u64
    ensures { result ≡ count_of_one given }
{
    match given {
        Given::Steps(n) | Given::Ticks(n) => n,
        Given::Byte(_) => 1,
    }
}

/// Notes one more thing that was given, or answers the status.
fn note(past: &mut Past, noted: Noted) -> Result<(), u32>
    ensures ok { OnOk result ((given : Gave) × (given_of noted ≡ Some given)
        × (past.new ≡ record past.old { given = past.old.given ++ given ∷ [] })) }
    ensures few { OnOk result (count_of past.new.given < 2 ^ 64) }
    ensures err { IfErr result (λ status. (status ≡ no_memory) ⊎ ((status ≡ out_of_range)
        × ((given : Gave) → given_of noted ≡ Some given → 2 ^ 64 ≤ count_of past.old.given + count_of_one given))) }
{
    let Some(given) = given_of(noted) else {
        return Err(RANGE);
    };
    if u64::MAX - past.count() < count_of(given) {
        return Err(RANGE);
    }
    match past.push(given) {
        Ok(()) => Ok(()),
        Err(_) => Err(NO_MEMORY),
    }
}

/// The past of an image's machine that was given this, or the status.
fn past_of_image(alloc: Global, image: Image, all: &[Noted]) -> Result<Past, u32>
    ensures image { IfOk result (λ past. past.image ≡ image) }
    ensures given { IfOk result (λ past. map given_of all.now ≡ map Some past.given) }
    ensures few { IfOk result (λ past. count_of past.given < 2 ^ 64) }
    ensures err { IfErr result (λ status. (status ≡ no_memory) ⊎ ((status ≡ out_of_range) × IsNoPast all.now)) }
{
    let mut past = Past::new(alloc, image);
    for noted in all {
        note(&mut past, *noted)?;
    }
    Ok(past)
}

/// The same, where the image is read first.
pub(crate) fn past_of(alloc: Global, image: &[u8], all: &[Noted]) -> Result<Past, u32>
    ensures ok { IfOk result (IsPast image.now all.now) }
    ensures err { IfErr result (IsPastRefusal image.now all.now) }
{
    match image_of_bytes(alloc, image) {
        Ok(image) => past_of_image(alloc, image, all),
        Err(fault) => Err(status_of_image(fault)),
    }
}

/// The machine after the first events of a past, or `None` where there is no memory for it.
fn machine_after(alloc: Global, past: &Past, events: u64) -> Option<Box<Machine<WordCap>>>
    ensures { IfSome result (λ machine. machine.value ≡ state_at events past.now None) }
{
    match past.machine_at(alloc, None, events) {
        Ok((machine, _)) => Box::new(alloc, machine).ok(),
        Err(_) => None,
    }
}

/// The machine as it stood before the last events of a past, or the status.
pub(crate) fn taken_back(
    alloc: Global,
    image: &[u8],
    all: &[Noted],
    events: u64,
) -> Result<Box<Machine<WordCap>>, u32>
    ensures ok { IfOk result (λ machine. IsTakenBack image.now all.now events machine.value) }
    ensures err { IfErr result (IsBackRefusal image.now all.now events) }
{
    let past = past_of(alloc, image, all)?;
    if past.count() < events {
        return Err(RANGE);
    }
    match machine_after(alloc, &past, past.count() - events) {
        Some(machine) => Ok(machine),
        None => Err(NO_MEMORY),
    }
}
