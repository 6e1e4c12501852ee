//! What holds of words, records and windows: each function's contract is a law, and its body is empty or gives a constant.

ghost use Rattle.std.specs.Prelude.{◌≡◌, ◌^◌, true, false};
ghost use Rattle.base.specs.ObjectType.{unsealed_type};
ghost use Rattle.cap_bounds.specs.CapValue.{ValueIsItsWordAndTag, value_of, word_of};
ghost use Rattle.cap_bounds.specs.Mantissa.{LengthMantissaIsInRange};
ghost use Rattle.cap_bounds.specs.Record.{AddressLiesInItsWindow, CanonicalWordIsWellFormed, WordMeansItsRecord, decoded, record_with};
ghost use Rattle.cap_bounds.specs.Root.{root};
ghost use Rattle.cap_bounds.specs.Rounding.{RoundingTakesTheLeastGranule};
ghost use Rattle.cap_bounds.specs.SetAddress.{BoundsStayInTheWindow, BoundsLieInTheWindow};
ghost use Rattle.cap_bounds.specs.SetBounds.{BoundsStayInsideTheAuthority};
ghost use Rattle.cap_bounds.specs.Window.{BaseIsByWindows, DecodedBoundsAreInRange};

use cap_format::CapWord;

/// A capability's canonical word decodes to its bounds, address, permissions, flag and object type, at every exponent.
pub fn one_word_means_its_record()
    ensures { WordMeansItsRecord }
{}

/// A capability's canonical word has 128 bits and may be tagged: it decodes to a capability whose encoding it is.
pub fn canonical_words_are_well_formed()
    ensures { CanonicalWordIsWellFormed }
{}

/// Root's word, which means the unsealed capability with every permission over the whole address space, and is its word.
pub fn root_word() -> CapWord
    ensures meaning { value_of result true ≡ root 0 false }
    ensures word { word_of (root 0 false) ≡ result }
{
    CapWord::ROOT
}

/// Null's word, which decodes to no permission over the whole address space.
pub fn null_word() -> CapWord
    ensures { decoded result ≡ record_with 0 (2 ^ 64) 0 0 false unsealed_type }
{
    CapWord::NULL
}

/// The base is the one number congruent to B * 2^E, modulo 2^(E+14), in the window that holds the address.
pub fn base_is_by_windows()
    ensures { BaseIsByWindows }
{}

/// A capability's bounds, decoded with another address, stay the same exactly while the address is in its window.
pub fn bounds_stay_in_the_window()
    ensures { BoundsStayInTheWindow }
{}

/// Every word's address is in the representable space of the base that it decodes to, malformed words included.
pub fn every_address_lies_in_its_window()
    ensures { AddressLiesInItsWindow }
{}

/// Every word decodes to a base below 2^64 and a top below 2^65.
pub fn decoded_bounds_are_in_range()
    ensures { DecodedBoundsAreInRange }
{}

/// Every word's length mantissa is below 2^12, or from 2^12 on and below 2^13 with an internal exponent.
pub fn length_mantissa_is_in_range()
    ensures { LengthMantissaIsInRange }
{}

/// A capability, or data, is what its word and its tag mean.
pub fn values_are_their_words_and_tags()
    ensures { ValueIsItsWordAndTag }
{}

/// A request of 4096 bytes or more, base and length below 2^64, is rounded out to granules of 2^(e+3) bytes, where e is the
/// least exponent, at most 52, at which it touches fewer than 1024 granules.
pub fn rounding_takes_the_least_granule()
    ensures { RoundingTakesTheLeastGranule }
{}

/// Every address in a capability's bounds, and its top, lies in its window: there its bounds stay.
pub fn bounds_lie_in_the_window()
    ensures { BoundsLieInTheWindow }
{}

/// A range in the bounds of a capability is rounded out to a range that lies in them too.
pub fn bounds_stay_inside_the_authority()
    ensures { BoundsStayInsideTheAuthority }
{}
