//! The object of a capability that a register or memory holds.

ghost use Rattle.std.specs.Prelude.{◌≡◌, ◌++◌, OnOk};
ghost use Rattle.bounds_objects.specs.Value.{bound_fields, kind_fields, value_field};

use crate::word::sealing_word;
use bounds_text::{permission_letters, sealing_of};
use cap_bounds::CapRep;
use cap_rights::Perms;
use objects::{Item, Writer, put};
use std::alloc::AllocError;

/// Says a capability's tag, its address and its bounds.
#[tactic(auto, unfolding(crate::specs::Value::bound_fields))]
fn put_bounds<C: CapRep>(object: &mut Writer, cap: C) -> Result<(), AllocError>
    ensures tokens { OnOk result (object.new.tokens ≡ object.old.tokens ++ bound_fields (C.value cap)) }
    ensures alone { object.new.before ≡ object.old.before }
{
    put(
        object,
        &[
            Item::Truth("tag", cap.tag()),
            Item::Address("address", cap.address()),
            Item::Address("base", cap.base()),
            Item::Wide("top", cap.top()),
        ],
    )
}

/// Says a capability's permissions, its flag and its object type.
#[tactic(auto, unfolding(crate::specs::Value::kind_fields))]
fn put_kind<C: CapRep>(object: &mut Writer, cap: C) -> Result<(), AllocError>
    ensures tokens { OnOk result (object.new.tokens ≡ object.old.tokens ++ kind_fields (C.value cap)) }
    ensures alone { object.new.before ≡ object.old.before }
{
    let perms = cap.perms();
    let letters = permission_letters(perms);
    let otype = cap.otype();
    put(
        object,
        &[
            Item::Number("perms", u64::from(Perms { bits: perms }.hardware())),
            Item::Text("letters", letters.as_str()),
            Item::Truth("flag", cap.flag()),
            Item::Number("otype", u64::from(otype)),
            Item::Text("sealing", sealing_word(sealing_of(otype))),
        ],
    )
}

/// Says a capability: its tag, its address and its bounds, its permissions as CGetPerm gives them and in letters, its flag and its type.
///
/// # Errors
///
/// Out of memory.
#[tactic(auto, unfolding(crate::specs::Value::value_field))]
pub fn put_value<C: CapRep>(object: &mut Writer, name: &str, cap: C) -> Result<(), AllocError>
    ensures tokens { OnOk result (object.new.tokens ≡ object.old.tokens ++ value_field name.now (C.value cap)) }
    ensures alone { object.new.before ≡ object.old.before }
{
    put(object, &[Item::Begin(name)])?;
    put_bounds(object, cap)?;
    put_kind(object, cap)?;
    put(object, &[Item::End])
}
