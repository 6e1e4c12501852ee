//! Profiles: how many steps were fetched at each label, or in each 4 KiB where no label is near.

ghost use Rattle.std.specs.Prelude.{◌≡◌, ℕ, ◌+◌, ◌<◌, ◌-◌, ◌^◌, ◌==◌, List, [], ◌∷◌, ◌++◌, if◌then◌else◌, length, map, IfOk, OnOk};
ghost use Rattle.std.specs.Prelude.{string_bytes};
ghost use Rattle.std.specs.BTreeMap.{IsOrdered};
ghost use Rattle.std.specs.Ordering.{nat_cmp};
ghost use Rattle.std.specs.List.{flat_map};
ghost use Rattle.std.specs.List.Sorted.{IsPermutation, IsSortedBy};
ghost use Rattle.sim_run.specs.Counts.{CountsMore, CountsTo};
ghost use Rattle.sim_run.specs.Profile.{IsProfile, IsSound, comes_before, count_at, count_of, place_of, place_text, profile_text, share};
ghost use Rattle.sim_run.specs.Profile.{share_line, tenths};

use std::alloc::{AllocError, Global};
use std::cmp::Reverse;
use std::collections::BTreeMap;
use symbols::{Labelled, Symbols, labelled};
use texts::Piece::{Decimal, Text, WideDecimal};
use texts::append;

/// How many bytes belong to a place at most.
const PLACE: u64 = 4096;

/// How many steps were fetched at a place.
#[derive(Clone, Copy, Debug, PartialEq, Eq)]
pub(crate) struct Share {
    /// Its first address: that of a label, or of 4 KiB where no label is near.
    pub place: u64,
    /// How many.
    pub count: u64,
}

/// Of each place how many steps were fetched there.
pub(crate) type Tally = BTreeMap<u64, u64>;

/// The place that an address belongs to.
#[tactic(auto, unfolding(crate::specs::Profile::place_of))]
fn place_of(symbols: &Symbols, address: u64) -> u64
    ensures { result ≡ place_of symbols.now address }
{
    if let Some(label) = symbols.nearest(address) {
        if address.saturating_sub(label.address()) < PLACE {
            return label.address();
        }
    }
    address / PLACE * PLACE
}

/// Counts a step more at a place.
fn count_one(tally: &mut Tally, place: u64) -> Result<(), AllocError>
    requires room { count_of tally.old place < 2 ^ 64 - 1 }
    ensures sound { IsSound tally.old → OnOk result (IsSound tally.new) }
    ensures counts { OnOk result ((other : ℕ) → count_of tally.new other
        ≡ count_of tally.old other + (if place == other then 1 else 0)) }
{
    *tally.entry(place)?.or_insert(0) += 1;
    Ok(())
}

/// Counts a step more, which is fetched at an address.
pub(crate) fn count_step(
    symbols: &Symbols,
    tally: &mut Tally,
    address: u64,
) -> Result<(), AllocError>
    requires room { CountsTo (2 ^ 64 - 2) tally.old }
    ensures more { OnOk result (CountsMore symbols.now (address ∷ []) tally.old tally.new) }
    ensures most { (number : ℕ) → CountsTo number tally.old → OnOk result (CountsTo (number + 1) tally.new) }
{
    count_one(tally, place_of(symbols, address))
}

/// The places with their counts: most steps first, and of as many the lower place.
fn ranked(alloc: Global, tally: &Tally) -> Result<Vec<Share>, AllocError>
    ensures same { IfOk result (λ shares. IsPermutation (map share tally.now.entries) shares.items) }
    ensures order { IfOk result (λ shares. IsSortedBy comes_before shares.items) }
    ensures ordered { IfOk result (λ _. IsOrdered nat_cmp tally.now) }
{
    let mut shares = Vec::new(alloc);
    for (place, count) in tally {
        let share = Share {
            place: *place,
            count: *count,
        };
        shares.push(share)?;
    }
    shares.sort_unstable_by_key(|share| (Reverse(share.count), share.place));
    Ok(shares)
}

/// An address, and the label there, if there is one.
fn place_text(symbols: &Symbols, place: u64) -> Labelled
    ensures { result.bytes ≡ place_text symbols.now place }
{
    match symbols.name_at(place) {
        Some(_) => labelled(Some(symbols), place),
        None => labelled(None, place),
    }
}

/// A part of all in tenths of a percent, rounded down.
fn tenths(count: u64, all: u64) -> u128
    ensures { result ≡ tenths count all }
{
    (u128::from(count) * 1000)
        .checked_div(u128::from(all))
        .unwrap_or(0)
}

/// Appends the line of a place to a text.
#[tactic(auto, unfolding(crate::specs::Profile::share_line))]
fn append_share(
    text: &mut String,
    symbols: &Symbols,
    all: u64,
    share: Share,
) -> Result<(), AllocError>
    ensures { OnOk result (string_bytes text.new ≡ string_bytes text.old ++ share_line symbols.now all share) }
{
    let tenths = tenths(share.count, all);
    let place = place_text(symbols, share.place);
    append(
        text,
        &[
            Decimal(share.count),
            Text(" "),
            WideDecimal(tenths / 10),
            Text("."),
            WideDecimal(tenths % 10),
            Text(" % "),
            Text(place.as_str()),
            Text("\n"),
        ],
    )
}

/// The text of a profile of so many steps.
fn profile_text(
    alloc: Global,
    symbols: &Symbols,
    all: u64,
    shares: &[Share],
) -> Result<String, AllocError>
    ensures { IfOk result (λ text. string_bytes text ≡ profile_text symbols.now all shares.now) }
{
    let mut text = String::new(alloc);
    for share in shares {
        append_share(&mut text, symbols, all, *share)?;
    }
    append(&mut text, &[Decimal(all), Text(" steps\n")])?;
    Ok(text)
}

/// The profile of so many steps that were counted.
pub(crate) fn profile_of(
    alloc: Global,
    symbols: &Symbols,
    steps: u64,
    tally: &Tally,
) -> Result<String, AllocError>
    ensures { (addresses : List ℕ) → steps ≡ length addresses → IsSound tally.now
        → ((place : ℕ) → count_of tally.now place ≡ count_at symbols.now addresses place)
        → IfOk result (λ text. IsProfile symbols.now addresses (string_bytes text)) }
{
    let shares = ranked(alloc, tally)?;
    profile_text(alloc, symbols, steps, &shares)
}
