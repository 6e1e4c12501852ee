//! Back, where a value came from, and where a tag went: over a past, which C keeps.

ghost use Rattle.std.specs.Prelude.{◌≡◌, ◌⊎◌, ◌≤◌, ◌<◌, None, List, ℕ, length, map, take};
ghost use Rattle.origins.specs.declared.search.Sought.TheVariants.{Written, Lost};
ghost use Rattle.symbols.specs.Symbols.{faulty_line, symbols_of};
ghost use Rattle.cherisim_c.specs.Links.{AreLinksOf, AreLossesOf, shown_link};
ghost use Rattle.cherisim_c.specs.Pasts.{IsBackRefusal, IsMachine, IsPlaceRefusal, IsTakenBack, IsToldOf};
ghost use Rattle.cherisim_c.specs.Refusals.{IsLabelsRefusal, IsRefusal};
ghost use Rattle.cherisim_c.specs.Status.{full};

use crate::asking::copy;
use crate::handle::Handle;
use crate::links::{links_of, losses_of};
use crate::pasts::taken_back;
use crate::policed::labels_of;
use crate::status::OK;
use crate::tellings::told_of;
use crate::types::{Linked, Noted, PlaceAsked};
use origins::Sought;
use std::alloc::Global;

/// Makes a machine as that of an image stood before the last events of what it was given. Where it fails, the handle keeps what it held.
#[unsafe(no_mangle)]
pub extern "C" fn cherisim_back(
    alloc: Global,
    image: &[u8],
    given: &[Noted],
    events: u64,
    machine: &mut Handle,
) -> u32
    ensures ok { result ≡ 0 → IsMachine (IsTakenBack image.now given.now events) machine.new.machine }
    ensures refused { 1 ≤ result → IsBackRefusal image.now given.now events result }
    ensures same { 1 ≤ result → machine.new.machine ≡ machine.old.machine }
{
    match taken_back(alloc, image, given, events) {
        Ok(made) => {
            machine.put(made);
            OK
        }
        Err(status) => status,
    }
}

/// What is told of a place of a past, with the labels of a table.
fn tell(
    alloc: Global,
    sought: Sought,
    image: &[u8],
    given: &[Noted],
    place: PlaceAsked,
    labels: &[u8],
    text: &mut [u8],
    size: &mut u64,
    line: &mut u64,
) -> u32
    ensures same { 1 ≤ result → result < full → (text.new ≡ text.old) × (size.new ≡ size.old) }
    ensures ok { result ≡ 0 → IsToldOf sought (symbols_of labels.now) image.now given.now place (take size.new text.new) }
    ensures few { result ≡ 0 → size.new ≤ length text.new }
    ensures full { result ≡ full → (told : List ℕ) × IsToldOf sought (symbols_of labels.now) image.now given.now place told
        × (size.new ≡ length told) × (length text.old < size.new) × (text.new ≡ text.old) }
    ensures labelled { (result ≡ 0) ⊎ (result ≡ full) → faulty_line labels.now ≡ None }
    ensures only { (result ≡ 0) ⊎ ((result ≡ full) ⊎ (IsRefusal (IsLabelsRefusal labels.now) line.new result
        ⊎ (IsPlaceRefusal image.now given.now place result × (line.new ≡ line.old)))) }
    ensures no_line { (result ≡ 0) ⊎ (result ≡ full) → line.new ≡ line.old }
{
    match labels_of(alloc, labels) {
        Ok(symbols) => match told_of(alloc, &symbols, image, given, place, sought) {
            Ok(told) => copy(told.as_str(), text, size),
            Err(status) => status,
        },
        Err(refusal) => refusal.report(line),
    }
}

/// How what a place of a past holds came to be, with the labels of a table, as the debugger's `origin` tells it: so many bytes at the
/// beginning of `text`. Where it is too short, its length is what it takes. Where the table is refused, its faulty line is written.
#[unsafe(no_mangle)]
pub extern "C" fn cherisim_origin(
    alloc: Global,
    image: &[u8],
    given: &[Noted],
    place: &PlaceAsked,
    labels: &[u8],
    text: &mut [u8],
    size: &mut u64,
    line: &mut u64,
) -> u32
    ensures same { 1 ≤ result → result < full → (text.new ≡ text.old) × (size.new ≡ size.old) }
    ensures ok { result ≡ 0 → IsToldOf Written (symbols_of labels.now) image.now given.now place.now (take size.new text.new) }
    ensures few { result ≡ 0 → size.new ≤ length text.new }
    ensures full { result ≡ full → (told : List ℕ) × IsToldOf Written (symbols_of labels.now) image.now given.now place.now told
        × (size.new ≡ length told) × (length text.old < size.new) × (text.new ≡ text.old) }
    ensures labelled { (result ≡ 0) ⊎ (result ≡ full) → faulty_line labels.now ≡ None }
    ensures only { (result ≡ 0) ⊎ ((result ≡ full) ⊎ (IsRefusal (IsLabelsRefusal labels.now) line.new result
        ⊎ (IsPlaceRefusal image.now given.now place.now result × (line.new ≡ line.old)))) }
    ensures no_line { (result ≡ 0) ⊎ (result ≡ full) → line.new ≡ line.old }
{
    tell(
        alloc,
        Sought::Written,
        image,
        given,
        *place,
        labels,
        text,
        size,
        line,
    )
}

/// Where the tag of a place of a past went, as the debugger's `lost` tells it; the rest as for `cherisim_origin`.
#[unsafe(no_mangle)]
pub extern "C" fn cherisim_lost(
    alloc: Global,
    image: &[u8],
    given: &[Noted],
    place: &PlaceAsked,
    labels: &[u8],
    text: &mut [u8],
    size: &mut u64,
    line: &mut u64,
) -> u32
    ensures same { 1 ≤ result → result < full → (text.new ≡ text.old) × (size.new ≡ size.old) }
    ensures ok { result ≡ 0 → IsToldOf Lost (symbols_of labels.now) image.now given.now place.now (take size.new text.new) }
    ensures few { result ≡ 0 → size.new ≤ length text.new }
    ensures full { result ≡ full → (told : List ℕ) × IsToldOf Lost (symbols_of labels.now) image.now given.now place.now told
        × (size.new ≡ length told) × (length text.old < size.new) × (text.new ≡ text.old) }
    ensures labelled { (result ≡ 0) ⊎ (result ≡ full) → faulty_line labels.now ≡ None }
    ensures only { (result ≡ 0) ⊎ ((result ≡ full) ⊎ (IsRefusal (IsLabelsRefusal labels.now) line.new result
        ⊎ (IsPlaceRefusal image.now given.now place.now result × (line.new ≡ line.old)))) }
    ensures no_line { (result ≡ 0) ⊎ (result ≡ full) → line.new ≡ line.old }
{
    tell(
        alloc,
        Sought::Lost,
        image,
        given,
        *place,
        labels,
        text,
        size,
        line,
    )
}

/// Copies links to the beginning of as many or more.
fn fill(found: &[Linked], links: &mut [Linked])
    requires { length found.now ≤ length links.old }
    ensures { take (length found.now) links.new ≡ found.now }
{
    links[..found.len()].copy_from_slice(found);
}

/// How what a place of a past holds came to be, as links, the newest first: so many at the beginning of `links`, and no more than there
/// is room for.
#[unsafe(no_mangle)]
pub extern "C" fn cherisim_origin_links(
    alloc: Global,
    image: &[u8],
    given: &[Noted],
    place: &PlaceAsked,
    links: &mut [Linked],
    count: &mut u64,
) -> u32
    ensures same { 1 ≤ result → (links.new ≡ links.old) × (count.new ≡ count.old) }
    ensures ok { result ≡ 0 → AreLinksOf image.now given.now place.now (length links.old) (map shown_link (take count.new links.new)) }
    ensures few { result ≡ 0 → count.new ≤ length links.new }
    ensures refused { 1 ≤ result → IsPlaceRefusal image.now given.now place.now result }
{
    match links_of(alloc, image, given, *place, links.len()) {
        Ok(found) => {
            *count = found.len() as u64;
            fill(&found, links);
            OK
        }
        Err(status) => status,
    }
}

/// Where the tag of a place of a past went, as links, the newest first, as the debugger's `lost` tells it; of double words that were copied
/// their stores, each with the granule that it was loaded from. The rest as for `cherisim_origin_links`.
#[unsafe(no_mangle)]
pub extern "C" fn cherisim_lost_links(
    alloc: Global,
    image: &[u8],
    given: &[Noted],
    place: &PlaceAsked,
    links: &mut [Linked],
    count: &mut u64,
) -> u32
    ensures same { 1 ≤ result → (links.new ≡ links.old) × (count.new ≡ count.old) }
    ensures ok { result ≡ 0 → AreLossesOf image.now given.now place.now (length links.old) (map shown_link (take count.new links.new)) }
    ensures few { result ≡ 0 → count.new ≤ length links.new }
    ensures refused { 1 ≤ result → IsPlaceRefusal image.now given.now place.now result }
{
    match losses_of(alloc, image, given, *place, links.len()) {
        Ok(found) => {
            *count = found.len() as u64;
            fill(&found, links);
            OK
        }
        Err(status) => status,
    }
}
