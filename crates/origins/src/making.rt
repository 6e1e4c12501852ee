//! The ways in which a step makes what it writes.
ghost use Rattle.std.specs.Prelude.{◌≡◌};
ghost use Rattle.origins.specs.Making as spec;

use crate::place::Place;
use base::scr;

/// How a step makes the value that it writes at a place. `from` is its source, as it stands before the step.
#[derive(Clone, Copy, Debug)]
pub enum Making {
    /// A number, or data over some of a granule's bytes: no capability.
    Number,
    /// What the source holds: CMove, CSpecialRW, SC, and MEPCC at a trap.
    Copied(Place),
    /// The same without the tag: CClearTag.
    Cleared(Place),
    /// What a granule holds, with its tag if the authority allows it: LC.
    Loaded {
        /// The granule's address.
        address: u64,
        /// What holds the authority.
        authority: Place,
    },
    /// With another address: CIncOffset, CSetOffset, CSetAddr, AUIPC, a write of mtvec or mepc, and PCC where a step leaves its window.
    Moved {
        /// The source.
        from: Place,
        /// The address.
        address: u64,
    },
    /// With the bounds of so many bytes from its address on: CSetBounds.
    Bounded {
        /// The source.
        from: Place,
        /// How many bytes.
        length: u64,
    },
    /// The same, where rounding changes nothing: CSetBoundsExact.
    BoundedExactly {
        /// The source.
        from: Place,
        /// How many bytes.
        length: u64,
    },
    /// With those of its permissions that a mask has: CAndPerm.
    Restricted {
        /// The source.
        from: Place,
        /// The mask.
        mask: u16,
    },
    /// With another flag: CSetFlags.
    Flagged {
        /// The source.
        from: Place,
        /// The flag.
        flag: bool,
    },
    /// Sealed: CSeal.
    Sealed {
        /// The source.
        from: Place,
        /// What holds the authority.
        authority: Place,
    },
    /// Unsealed: CUnseal.
    Unsealed {
        /// The source.
        from: Place,
        /// What holds the authority.
        authority: Place,
    },
    /// Sealed as an entry: CSealEntry.
    SealedEntry(Place),
    /// A link: PCC at the next instruction, sealed as an entry.
    Linked {
        /// The address.
        address: u64,
    },
    /// The data of a pair that is invoked, unsealed.
    Opened(Place),
    /// PCC after a jump to a capability, whose seal, if it has one, is opened: at its target.
    Entered {
        /// The source.
        from: Place,
        /// The target.
        address: u64,
    },
    /// PCC after a trap or a return, where a sentry is opened.
    Resumed {
        /// The source.
        from: Place,
        /// Where PCC stands.
        address: u64,
    },
}

impl Making {
    /// The place whose value is handed on; a number has none.
    pub fn source(self) -> Option<Place>
        ensures { result ≡ spec.source self }
    {
        match self {
            Making::Number => None,
            Making::Copied(from)
            | Making::Cleared(from)
            | Making::SealedEntry(from)
            | Making::Opened(from)
            | Making::Moved { from, .. }
            | Making::Bounded { from, .. }
            | Making::BoundedExactly { from, .. }
            | Making::Restricted { from, .. }
            | Making::Flagged { from, .. }
            | Making::Sealed { from, .. }
            | Making::Unsealed { from, .. }
            | Making::Entered { from, .. }
            | Making::Resumed { from, .. } => Some(from),
            Making::Loaded { address, .. } => Some(Place::Granule(address)),
            Making::Linked { .. } => Some(Place::Special(scr::PCC)),
        }
    }
}
