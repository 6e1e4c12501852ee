//! The object types of sealed members.
ghost use Rattle.std.specs.Prelude.{◌≡◌, ◌<◌, ◌≤◌, ◌++◌, ℕ, [], IfOk, OnOk, drop, length, slice_index_or, take};
ghost use Rattle.reached.specs.Links.{values};
ghost use Rattle.policy.specs.Opened.{put_type, types_with, with_type};

use base::otype;
use cap_bounds::CapRep;
use reached::Member;
use std::alloc::{AllocError, Global};

/// How many of some types are below one, before the first that is not.
fn count_below(types: &[u64], otype: u64) -> usize
    ensures few { result ≤ length types.now }
    ensures below { put_type otype types.now ≡ take result types.now ++ put_type otype (drop result types.now) }
    ensures next { (d : ℕ) → result < length types.now → otype ≤ slice_index_or types.now result d }
{
    let mut count = 0;
    while count < types.len() {
        if otype <= types[count] {
            return count;
        }
        count += 1;
    }
    count
}

/// Puts a number among ascending ones, if it is not there.
pub(crate) fn put_type(types: &mut Vec<u64>, otype: u64) -> Result<(), AllocError>
    ensures { OnOk result (types.new.items ≡ put_type otype types.old.items) }
{
    let place = count_below(types, otype);
    if place < types.len() && types[place] == otype {
        return Ok(());
    }
    types.insert(place, otype)?;
    Ok(())
}

/// Puts the type of a capability among others, if it is sealed with one that is not reserved.
fn put_type_of<C: CapRep>(types: &mut Vec<u64>, cap: C) -> Result<(), AllocError>
    ensures { OnOk result (types.new.items ≡ with_type types.old.items (C.value cap)) }
{
    if cap.otype() < otype::FIRST_RESERVED {
        put_type(types, u64::from(cap.otype()))
    } else {
        Ok(())
    }
}

/// The types of the members that are sealed with one that is not reserved, ascending and each once.
pub fn types_of<C: CapRep>(alloc: Global, members: &[Member<C>]) -> Result<Vec<u64>, AllocError>
    ensures { IfOk result (λ types. types.items ≡ types_with [] (values C.value members.now)) }
{
    let mut types = Vec::new(alloc);
    let mut number = 0;
    while number < members.len() {
        put_type_of(&mut types, members[number].cap)?;
        number += 1;
    }
    Ok(types)
}
