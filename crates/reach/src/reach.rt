//! The reach of a state.
ghost use Rattle.std.specs.Prelude.{◌≡◌, map, IfOk};
ghost use Rattle.reached.specs.Links.{values, AreLinked};
ghost use Rattle.reached.specs.Chain.{AreInOrder};
ghost use Rattle.reached.specs.Order.{seen_members};
ghost use Rattle.doors.specs.Roots.{roots_of, specials_of};
ghost use Rattle.reach.specs.Reach.{AreReachable, members_in};

use cap_bounds::CapRep;
use doors::{roots, specials};
use hart::Hart;
use reached::{Member, closure};
use std::alloc::{AllocError, Global};
use std::marker::Model;

/// Whatever code can come to hold from a state on, without a trap, an unsealing or a sealed jump.
#[derive(Drop)]
pub struct Reach<C: CapRep> {
    members: Vec<Member<C>>,
}

impl<C: CapRep> Model for Reach<C> {
    ghost use Rattle.std.specs.Prelude.{List};
    ghost use Rattle.reached.specs.declared.member.Member.{Member};

    ghost Value = { List (Member C) };

    ghost view = { λ r. r.members.items };
}

impl<C: CapRep> Reach<C> {
    /// The reach of a hart's state: exactly the values that are reachable in it, each with its link to where it was found.
    ///
    /// `AllocError` is out of memory.
    pub fn of(alloc: Global, hart: &Hart<C>) -> Result<Self, AllocError>
        ensures exact { IfOk result (λ reach. AreReachable hart.now (values C.value reach)) }
        ensures linked { IfOk result (λ reach.
            AreLinked C.value (roots_of hart.now) (specials_of hart.now.scrs) hart.now.memory reach) }
        ensures members { IfOk result (λ reach. seen_members C.value reach ≡ members_in hart.now) }
        ensures order { IfOk result (λ reach. AreInOrder reach) }
        ensures of_state { IfOk result (λ _. AreReachable hart.now (map (λ x. x.value) (members_in hart.now))) }
    {
        let first = roots(alloc, hart)?;
        let guarded = specials(alloc, hart)?;
        let members = closure(alloc, &first, &guarded, hart.memory())?;
        Ok(Reach { members })
    }

    /// The reachable capabilities, each with where it was found: after the member that opened its place, but for the roots.
    pub fn members(&self) -> &[Member<C>]
        ensures { result.now ≡ self.now }
    {
        self.members.as_slice()
    }
}
