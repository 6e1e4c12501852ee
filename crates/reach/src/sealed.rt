//! Which members are sealed.
ghost use Rattle.std.specs.Prelude.{◌≡◌, IfOk, filter};
ghost use Rattle.cap_bounds.specs.CapValue.{is_sealed};

use crate::reach::Reach;
use cap_bounds::CapRep;
use cap_rights::is_sealed;
use reached::Member;
use std::alloc::{AllocError, Global};

impl<C: CapRep> Reach<C> {
    /// The sealed members, in their order.
    ///
    /// `AllocError` is out of memory.
    pub fn sealed(&self, alloc: Global) -> Result<Vec<Member<C>>, AllocError>
        ensures { IfOk result (λ found. found.items ≡ filter (λ m. is_sealed (C.value m.cap)) self.now) }
    {
        let mut found = Vec::new(alloc);
        for member in self.members() {
            if !is_sealed(member.cap) {
                continue;
            }
            found.push(*member)?;
        }
        Ok(found)
    }
}
