//! Capabilities with their tag.

ghost use Rattle.std.specs.Prelude.{◌≡◌, ◌+◌, ◌*◌, ◌^◌, ◌≤◌, ◌&&◌, true, false, nat_le, ◌↔◌, IsTrue, IsSome, IfSome};
ghost use Rattle.cap_bounds.specs.Record.{IsWellFormed, IsWordWellFormed, decoded, record_with};
ghost use Rattle.cap_bounds.specs.CapValue.{Cap, Data, value_of, is_tagged, value_base, value_top, without_tag};
ghost use Rattle.cap_bounds.specs.SetAddress.{at_address};
ghost use Rattle.cap_bounds.specs.SetBounds.{with_bounds, bounds_exact, HasRoundedBounds, LiesWithin};
ghost use Rattle.cap_bounds.specs.PlainCap.{plain_value};
ghost use Rattle.word_cap.specs.WordCap.{word_value};
ghost use Rattle.c_types.specs.Words.{bits, capability_of, record_of};
ghost use Rattle.c_types.specs.Halves.{joined};

use crate::words::{cheri_base, cheri_flag, cheri_otype, cheri_perms, cheri_top};
use c_types::{CheriCap, CheriFields, CheriWord, inside, number_of, outside, word_of};
use cap_bounds::{CapRep, PlainCap};
use word_cap::WordCap;

/// The capability that a word and a tag are. A word that may not be tagged loses the tag.
#[unsafe(no_mangle)]
pub extern "C" fn cheri_cap(word: CheriWord, tag: bool) -> CheriCap
    ensures word { joined result.upper result.address ≡ bits word }
    ensures tag { IsTrue result.tag ↔ (IsTrue tag × IsWordWellFormed (bits word)) }
{
    CheriCap {
        address: word.address,
        upper: word.upper,
        tag: tag && word_cap::is_well_formed(word_of(word)),
    }
}

/// The capability with this address, where it is unsealed and its bounds stay; else its bits with this address.
#[unsafe(no_mangle)]
pub extern "C" fn cheri_set_address(cap: CheriCap, address: u64) -> CheriCap
    ensures { capability_of result ≡ at_address (capability_of cap) address }
{
    outside(inside(cap).set_address(address))
}

/// The capability with the bounds of `length` bytes from its address, rounded out, and whether rounding changed nothing.
#[unsafe(no_mangle)]
pub extern "C" fn cheri_set_bounds(cap: CheriCap, length: u64, exact: &mut bool) -> CheriCap
    ensures value { capability_of result ≡ with_bounds (capability_of cap) length }
    ensures exact { exact.new ≡ bounds_exact (capability_of cap) length }
{
    let (bounded, is_exact) = inside(cap).set_bounds(length);
    *exact = is_exact;
    outside(bounded)
}

/// The plain form of these bounds and fields.
fn plain_of(fields: &CheriFields) -> Option<PlainCap>
    ensures some { IsSome result ↔ IsWellFormed (record_of fields.now) }
    ensures value { IfSome result (λ c. plain_value c ≡ Cap (record_of fields.now)) }
{
    let top = number_of(fields.top_high, fields.top_low);
    PlainCap::of(
        fields.base,
        top,
        fields.address,
        fields.perms,
        fields.flag,
        fields.otype,
    )
}

/// The capability with these bounds and fields: false, and nothing is written, where no word says them.
#[unsafe(no_mangle)]
pub extern "C" fn cheri_compress(fields: &CheriFields, out: &mut CheriCap) -> bool
    ensures some { IsTrue result ↔ IsWellFormed (record_of fields.now) }
    ensures value { IsTrue result → capability_of out.new ≡ Cap (record_of fields.now) }
    ensures same { result ≡ false → out.new ≡ out.old }
{
    match plain_of(fields) {
        Some(cap) => {
            *out = outside(cap);
            true
        }
        None => false,
    }
}

/// What a word says of its bounds and fields, tagged or not.
#[unsafe(no_mangle)]
#[tactic(auto, unfolding(cap_bounds::specs::Record::decoded))]
pub extern "C" fn cheri_decompress(word: CheriWord, fields: &mut CheriFields)
    ensures { record_of fields.new ≡ decoded (bits word) }
{
    let top = cheri_top(word);
    *fields = CheriFields {
        base: cheri_base(word),
        top_low: top.low,
        top_high: top.high,
        address: word.address,
        otype: cheri_otype(word),
        perms: cheri_perms(word),
        flag: cheri_flag(word),
    };
}
