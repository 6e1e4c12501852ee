ghost use Rattle.std.specs.Prelude.{◌≡◌};
ghost use Rattle.cap_rights.specs.Derivations as spec;

use cap_bounds::CapRep;

/// Whether the tags are equal and the second's bounds and 16 permissions lie within the first's.
#[tactic(auto, unfolding(crate::specs::Derivations::subset, crate::specs::Derivations::is_within))]
pub fn subset<C: CapRep>(outer: C, c: C) -> bool
    ensures { result ≡ spec.subset (C.value outer) (C.value c) }
{
    outer.tag() == c.tag()
        && outer.base() <= c.base()
        && c.top() <= outer.top()
        && c.perms() & outer.perms() == c.perms()
}

/// Whether the tags and all 128 bits are equal.
#[inline]
#[tactic(auto, unfolding(crate::specs::Derivations::equal_exact))]
pub fn equal_exact<C: CapRep>(a: C, b: C) -> bool
    ensures { result ≡ spec.equal_exact (C.value a) (C.value b) }
{
    a.tag() == b.tag() && a.word() == b.word()
}
