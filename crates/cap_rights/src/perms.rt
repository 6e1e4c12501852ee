ghost use Rattle.std.specs.Prelude.{⊤, ◌≡◌, ◌*◌, ◌^◌, ◌<◌, [], ◌∷◌, codes, bit_and, bit_or};
ghost use Rattle.cap_rights.specs.Perms as spec;

use crate::permission::Permission;
use bitflags::{Flag, Flags};
use std::ops::{BitAnd, BitOr};

/// A set of permissions: hardware permissions at bits 0 to 11, user permissions at bits 12 to 15.
#[derive(Clone, Copy, Debug, PartialEq, Eq, Hash)]
pub struct Perms {
    /// The bits, each of them a permission.
    pub bits: u16,
}

impl Perms {
    /// It may be stored anywhere that capabilities may be.
    pub const GLOBAL: Perms = Perms { bits: 0x1 };

    /// Instructions may be fetched.
    pub const EXECUTE: Perms = Perms { bits: 0x2 };

    /// Data may be loaded.
    pub const LOAD: Perms = Perms { bits: 0x4 };

    /// Data may be stored.
    pub const STORE: Perms = Perms { bits: 0x8 };

    /// A loaded capability keeps its tag.
    pub const LOAD_CAPABILITY: Perms = Perms { bits: 0x10 };

    /// A capability may be stored.
    pub const STORE_CAPABILITY: Perms = Perms { bits: 0x20 };

    /// A capability that is not Global may be stored.
    pub const STORE_LOCAL_CAPABILITY: Perms = Perms { bits: 0x40 };

    /// It seals with the types in its bounds.
    pub const SEAL: Perms = Perms { bits: 0x80 };

    /// It may be one of a pair that is invoked.
    pub const CINVOKE: Perms = Perms { bits: 0x100 };

    /// It unseals the types in its bounds.
    pub const UNSEAL: Perms = Perms { bits: 0x200 };

    /// Code that it fetches may use system registers.
    pub const ACCESS_SYSTEM_REGISTERS: Perms = Perms { bits: 0x400 };

    /// No row asks for it.
    pub const SET_CID: Perms = Perms { bits: 0x800 };

    /// The first user permission.
    pub const USER0: Perms = Perms { bits: 0x1000 };

    /// The second user permission.
    pub const USER1: Perms = Perms { bits: 0x2000 };

    /// The third user permission.
    pub const USER2: Perms = Perms { bits: 0x4000 };

    /// The fourth user permission.
    pub const USER3: Perms = Perms { bits: 0x8000 };

    /// The permissions with their names, the lowest bit first.
    pub const FLAGS: &'static [Flag<Perms>] = &[
        Flag {
            name: "GLOBAL",
            value: Perms::GLOBAL,
        },
        Flag {
            name: "EXECUTE",
            value: Perms::EXECUTE,
        },
        Flag {
            name: "LOAD",
            value: Perms::LOAD,
        },
        Flag {
            name: "STORE",
            value: Perms::STORE,
        },
        Flag {
            name: "LOAD_CAPABILITY",
            value: Perms::LOAD_CAPABILITY,
        },
        Flag {
            name: "STORE_CAPABILITY",
            value: Perms::STORE_CAPABILITY,
        },
        Flag {
            name: "STORE_LOCAL_CAPABILITY",
            value: Perms::STORE_LOCAL_CAPABILITY,
        },
        Flag {
            name: "SEAL",
            value: Perms::SEAL,
        },
        Flag {
            name: "CINVOKE",
            value: Perms::CINVOKE,
        },
        Flag {
            name: "UNSEAL",
            value: Perms::UNSEAL,
        },
        Flag {
            name: "ACCESS_SYSTEM_REGISTERS",
            value: Perms::ACCESS_SYSTEM_REGISTERS,
        },
        Flag {
            name: "SET_CID",
            value: Perms::SET_CID,
        },
        Flag {
            name: "USER0",
            value: Perms::USER0,
        },
        Flag {
            name: "USER1",
            value: Perms::USER1,
        },
        Flag {
            name: "USER2",
            value: Perms::USER2,
        },
        Flag {
            name: "USER3",
            value: Perms::USER3,
        },
    ];

    /// The set of these bits: each of the 16 is a permission.
    #[inline]
    pub fn from_bits(bits: u16) -> Perms
        ensures { result.bits ≡ bits }
    {
        Perms { bits }
    }

    /// The bits, below `2^16`.
    #[inline]
    pub fn bits(self) -> u16
        ensures value { result ≡ self.bits }
        ensures range { self.bits < 2 ^ 16 }
    {
        self.bits
    }

    /// The set of one hardware permission.
    #[inline]
    pub fn of(permission: Permission) -> Perms
        ensures { result.bits ≡ spec.set_of_one permission }
    {
        Perms {
            bits: 1 << permission as u16,
        }
    }

    /// The number that shows the set: hardware permissions at bits 0 to 11, user permissions at bits 15 to 18.
    #[inline]
    #[tactic(auto, unfolding(crate::specs::Perms::hardware_view))]
    pub fn hardware(self) -> u64
        ensures { result ≡ spec.hardware_view self.bits }
    {
        let bits = u64::from(self.bits);
        bits / 0x1000 * 0x8000 + bits % 0x1000
    }

    /// The set that a number names by its bits 0 to 11 and 15 to 18, whatever its other bits.
    #[inline]
    #[tactic(auto, unfolding(crate::specs::Perms::perms_in_view))]
    pub fn from_hardware(view: u64) -> Perms
        ensures { result.bits ≡ spec.perms_in_view view }
    {
        let bits = view / 0x8000 % 16 * 0x1000 + view % 0x1000;
        Perms { bits: bits as u16 }
    }
}

impl Flags for Perms {
    type Bits = u16;

    ghost exact = { ⊤ };

    ghost table = { (codes "GLOBAL", 0x1) ∷ (codes "EXECUTE", 0x2) ∷ (codes "LOAD", 0x4) ∷ (codes "STORE", 0x8)
        ∷ (codes "LOAD_CAPABILITY", 0x10) ∷ (codes "STORE_CAPABILITY", 0x20) ∷ (codes "STORE_LOCAL_CAPABILITY", 0x40)
        ∷ (codes "SEAL", 0x80) ∷ (codes "CINVOKE", 0x100) ∷ (codes "UNSEAL", 0x200)
        ∷ (codes "ACCESS_SYSTEM_REGISTERS", 0x400) ∷ (codes "SET_CID", 0x800) ∷ (codes "USER0", 0x1000)
        ∷ (codes "USER1", 0x2000) ∷ (codes "USER2", 0x4000) ∷ (codes "USER3", 0x8000) ∷ [] };

    ghost set_of = { λ p. p.bits };

    fn flags<'a>() -> &'a [Flag<Perms>] {
        Perms::FLAGS
    }

    fn bits(&self) -> u16 {
        Perms::bits(*self)
    }

    fn from_bits_retain(bits: u16) -> Perms {
        Perms::from_bits(bits)
    }
}

impl BitAnd for Perms {
    type Output = Perms;

    ghost bitand_gives = { λ a b r. r.bits ≡ bit_and a.bits b.bits };

    fn bitand(self, other: Perms) -> Perms {
        Perms {
            bits: self.bits & other.bits,
        }
    }
}

impl BitOr for Perms {
    type Output = Perms;

    ghost bitor_gives = { λ a b r. r.bits ≡ bit_or a.bits b.bits };

    fn bitor(self, other: Perms) -> Perms {
        Perms {
            bits: self.bits | other.bits,
        }
    }
}
