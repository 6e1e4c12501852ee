//! The object types of sealed members, as a part of a rule.
ghost use Rattle.std.specs.Prelude.{◌≡◌, ◌++◌, OnOk, string_bytes};
ghost use Rattle.std.specs.List.{flat_map};
ghost use Rattle.reached.specs.Links.{values};
ghost use Rattle.policy_audit.specs.Entries.{next_type, types_part};

use cap_bounds::CapRep;
use policy::types_of;
use reached::Member;
use std::alloc::{AllocError, Global};
use texts::Piece::{Decimal, Text};
use texts::append;

/// Appends types, one after the other.
#[tactic(auto, unfolding(crate::specs::Entries::next_type))]
fn append_each(text: &mut String, types: &[u64]) -> Result<(), AllocError>
    ensures { OnOk result (string_bytes text.new ≡ string_bytes text.old ++ flat_map next_type types.now) }
{
    for otype in types {
        append(text, &[Text(" "), Decimal(*otype)])?;
    }
    Ok(())
}

/// Appends the types of the members that are sealed, or that there is none.
#[tactic(auto, unfolding(crate::specs::Entries::types_part))]
pub(crate) fn append_types<C: CapRep>(
    text: &mut String,
    alloc: Global,
    members: &[Member<C>],
) -> Result<(), AllocError>
    ensures { OnOk result (string_bytes text.new ≡ string_bytes text.old ++ types_part (values C.value members.now)) }
{
    let types = types_of(alloc, members)?;
    append(text, &[Text(", types")])?;
    if types.is_empty() {
        append(text, &[Text(" none")])
    } else {
        append_each(text, &types)
    }
}
