//! The object of a length: what an allocator asks.

ghost use Rattle.std.specs.Prelude.{◌≡◌, IfOk, string_bytes};
ghost use Rattle.bounds_objects.specs.Length.{length_object as object_of};

use bounds_text::whole_length;
use cap_bounds::granule;
use cap_insns::alignment_mask;
use objects::{Item, object_line};
use std::alloc::{AllocError, Global};

/// What an allocator asks of a length, as the line of an object: of the same values as `length_text`.
///
/// # Errors
///
/// Out of memory.
#[tactic(auto, unfolding(crate::specs::Length::length_object))]
pub fn length_object(alloc: Global, length: u64) -> Result<String, AllocError>
    ensures { IfOk result (λ line. string_bytes line ≡ object_of length) }
{
    let rounded = whole_length(length);
    object_line(
        alloc,
        &[
            Item::Address("length", length),
            Item::Wide("rounded", rounded),
            Item::Wide("align", granule(length)),
            Item::Address("mask", alignment_mask(length)),
            Item::Wide("padding", rounded - u128::from(length)),
        ],
    )
}
