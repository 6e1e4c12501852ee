//! Two numbers of 64 bits.

ghost use Rattle.std.specs.Prelude.{◌≡◌, ◌++◌, OnOk};
ghost use Rattle.bounds_objects.specs.Bounds.{pair_field};

use objects::{Item, Writer, put};
use std::alloc::AllocError;

/// Says an object of this name with two numbers of 64 bits, as the halves of a word, or as the first and the last address of a window.
pub(crate) fn put_pair<'x>(
    object: &mut Writer,
    name: &'x str,
    first: &'x str,
    one: u128,
    second: &'x str,
    other: u128,
) -> Result<(), AllocError>
    ensures tokens { OnOk result (object.new.tokens ≡ object.old.tokens ++ pair_field name.now first.now one second.now other) }
    ensures alone { object.new.before ≡ object.old.before }
{
    put(
        object,
        &[
            Item::Begin(name),
            Item::Half(first, one),
            Item::Half(second, other),
            Item::End,
        ],
    )
}
