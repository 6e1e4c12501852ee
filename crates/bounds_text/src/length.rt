//! The text of a length: what an allocator asks.

ghost use Rattle.std.specs.Prelude.{◌≡◌, ◌+◌, ◌^◌, ◌<◌, ◌≤◌};
ghost use Rattle.bounds_text.specs.LengthText.{length_text as text_of, whole_length};

use cap_bounds::granule;
use cap_insns::alignment_mask;
use texts::{pieces, text};

/// A length rounded up to what a capability with an aligned base has, fewer than `2^55` bytes more.
#[tactic(auto, unfolding(crate::specs::LengthText::whole_length))]
pub fn whole_length(length: u64) -> u128
    ensures value { result ≡ whole_length length }
    ensures high { length ≤ result }
    ensures near { result < length + 2 ^ 55 }
{
    let granule = granule(length);
    (u128::from(length) + granule - 1) / granule * granule
}

/// What an allocator asks of a length, as a text: how long a block is whose bounds are exact, what its base is a multiple of, how many
/// bytes it has more than were asked for, and the bounds from address 0.
///
/// It takes no memory, and nothing is refused.
#[tactic(auto, unfolding(crate::specs::LengthText::length_text, crate::specs::LengthText::length_lines))]
pub fn length_text(length: u64) -> crate::Text
    ensures { result.bytes ≡ text_of length }
{
    let asked = u128::from(length);
    let rounded = whole_length(length);
    text(&pieces![
        "asked    length " WideDecimal(asked)
        "\nrounded  length " WideDecimal(rounded)
        "\nalign    " WideDecimal(granule(length)) ", mask " Address(alignment_mask(length))
        "\npadding  " WideDecimal(rounded - asked)
        "\nbounds   0000000000000000 " Hexadecimal(17, rounded)
        ", and so from each multiple of " WideDecimal(granule(length)) "\n"
    ])
}
