ghost use Rattle.std.specs.Prelude.{◌≡◌, ◌%◌, ◌^◌, ◌<◌, ◌↔◌, IsSome, IfSome};
ghost use Rattle.cap_bounds.specs.CapValue.{value_otype};
ghost use Rattle.base.specs.ObjectType.{is_reserved};
ghost use Rattle.cap_rights.specs.ObjectType as spec;

use base::otype;
use cap_bounds::CapRep;
use std::marker::Model;

/// An object type, below `2^18`. The four greatest are reserved: no authority seals or unseals with them.
#[derive(Clone, Copy, Debug, PartialEq, Eq, Hash)]
pub struct OType {
    number: u32,
}

impl Model for OType {
    ghost use Rattle.std.specs.Prelude.{ℕ, ◌^◌, ◌<◌};

    ghost Value = { ℕ };

    ghost view = { λ t. t.number };

    ghost invariant = { λ t. t.number < 2 ^ 18 };

    ghost inverse = { λ n. record { number = n } };
}

impl OType {
    /// The type of what isn't sealed.
    pub const UNSEALED: OType = OType {
        number: otype::UNSEALED,
    };

    /// The type of a sealed entry, which a jump unseals.
    pub const SENTRY: OType = OType {
        number: otype::SENTRY,
    };

    /// The type of this number, or `None` from `2^18` on.
    pub fn new(number: u32) -> Option<OType>
        ensures some { IsSome result ↔ (number < 2 ^ 18) }
        ensures value { IfSome result (λ t. t ≡ number) }
    {
        if number < 0x4_0000 {
            Some(OType { number })
        } else {
            None
        }
    }

    /// The type of a capability, tagged or not.
    #[inline]
    pub fn of<C: CapRep>(c: C) -> OType
        ensures { result ≡ value_otype (C.value c) }
    {
        OType { number: c.otype() }
    }

    /// The type that an address names by its low 18 bits.
    #[inline]
    pub fn named_by(address: u64) -> OType
        ensures { result ≡ address % 2 ^ 18 }
    {
        OType {
            number: (address % 0x4_0000) as u32,
        }
    }

    /// The number, below `2^18`.
    #[inline]
    pub fn number(self) -> u32
        ensures value { result ≡ self }
        ensures range { self < 2 ^ 18 }
    {
        self.number
    }

    /// Whether the type is one of `0x3FFFC` to `0x3FFFF`.
    #[inline]
    pub fn is_reserved(self) -> bool
        ensures { result ≡ is_reserved self }
    {
        self.number >= otype::FIRST_RESERVED
    }

    /// The number, of a reserved type less `2^18` as a signed number of 64 bits: `2^64 - 4` to `2^64 - 1`.
    #[inline]
    #[tactic(auto, unfolding(crate::specs::ObjectType::signed_type))]
    pub fn signed_number(self) -> u64
        ensures { result ≡ spec.signed_type self }
    {
        let number = u64::from(self.number);
        if self.is_reserved() {
            u64::MAX - 0x3_ffff + number
        } else {
            number
        }
    }
}
