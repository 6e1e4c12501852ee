/// Why a statement has no place (A7).
#[derive(Clone, Copy, Debug, PartialEq, Eq)]
pub enum Misplaced {
    /// Its first byte lies below RAM.
    BelowRam,
    /// Its last byte lies past the end of RAM.
    PastRam,
    /// A byte of an earlier line stands there.
    Taken,
    /// It is the first byte of a 65th section.
    TooManySections,
    /// It is an instruction at no multiple of 4.
    CodeAskew,
    /// It is a capability at no multiple of 16.
    CapabilityAskew,
    /// It is the 1025th capability.
    TooManyCapabilities,
}
