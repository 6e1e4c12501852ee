use crate::place::Place;
use cap_rights::Permission;

/// What the tag of a value that a step makes hangs on.
#[derive(Clone, Copy, Debug)]
pub enum TagQuestion {
    /// Whether what a place holds is tagged.
    Tag(Place),
    /// Whether its seal, or that there is none, allows it.
    Seal(Place),
    /// Whether an address lies in its representable window.
    Window {
        /// What holds the capability.
        place: Place,
        /// The address.
        address: u64,
    },
    /// Whether so many bytes from an address lie in its bounds.
    Bounds {
        /// What holds the capability.
        place: Place,
        /// The address of the first byte.
        address: u64,
        /// How many bytes.
        size: u64,
    },
    /// Whether rounding changes nothing of the bounds of so many bytes from an address.
    Exact {
        /// The address.
        address: u64,
        /// How many bytes.
        length: u64,
    },
    /// Whether it has a permission.
    Permit {
        /// What holds the capability.
        place: Place,
        /// The permission.
        permission: Permission,
    },
    /// Whether the object type that an authority names is one that it can seal with, or that of what is unsealed.
    Type(Place),
    /// Whether a capability is written, and no number or data.
    Capability,
    /// Whether the instruction leaves the tag: CClearTag doesn't.
    Kept,
}

/// A condition: its question, and its answer.
#[derive(Clone, Copy, Debug)]
pub struct TagCondition {
    /// What it asks.
    pub question: TagQuestion,
    /// Whether it holds.
    pub holds: bool,
}
