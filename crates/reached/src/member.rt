//! What the search finds.

/// Where a member was found.
#[derive(Clone, Copy, Debug, PartialEq, Eq)]
pub enum Place {
    /// Among the roots, at this place: general registers, PCC and DDC.
    Root(usize),
    /// Among the special registers that Access_System_Registers guards, at this place.
    Special(usize),
    /// In the granule at this address.
    Granule(u64),
}

/// A reachable capability, where it was found, and the number of the member that led there.
#[derive(Clone, Copy, Debug)]
pub struct Member<C> {
    /// The capability.
    pub cap: C,
    /// Where it was found.
    pub place: Place,
    /// The number of the member that opens this place, where it was not found among the roots.
    pub from: usize,
}
