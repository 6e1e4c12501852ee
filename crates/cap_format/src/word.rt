ghost use Rattle.std.specs.Prelude.{◌≡◌, ◌<◌, ◌+◌, ◌*◌, ◌^◌};
ghost use Rattle.base.specs.Bits.{bit};
ghost use Rattle.cap_format.specs.Word.{address_of, b_field_of, t_field_of, ie_of, otype_of, flag_of, perms_of, with_field};
ghost use Rattle.cap_format.specs.Word.{with_address_of, memory_bytes, word_of_memory};

use std::marker::Model;

/// A 128-bit capability word in logical form (UCAM-CL-TR-987, CHERI Concentrate).
///
/// Bit 127 downwards: user permissions (4), hardware permissions (12), reserved (2), flag (1),
/// object type (18), IE (1), T (12), B (14), address (64).
///
/// It is kept in two halves, so that a field is read by a shift of 64 bits and a replaced address costs nothing.
#[derive(Clone, Copy, Debug, Eq, Hash)]
pub struct CapWord {
    /// The address.
    low: u64,
    /// All other fields.
    high: u64,
}

impl Model for CapWord {
    ghost use Rattle.std.specs.Prelude.{ℕ, ◌+◌, ◌*◌, ◌/◌, ◌%◌, ◌^◌, ◌<◌};
    ghost use Rattle.cap_format.specs.Halves.{halves_of_joined};

    ghost Value = { ℕ };

    ghost view = { λ w. w.high * 2 ^ 64 + w.low };

    ghost invariant = { λ w. w.low < 2 ^ 64 };

    ghost inverse = { λ n. record { low = n % 2 ^ 64; high = n / 2 ^ 64 } };

    ghost inverse_ok = { λ a h. halves_of_joined a h };
}

impl PartialEq for CapWord {
    ghost use Rattle.std.specs.Prelude.{nat_eq};
    ghost use Rattle.std.proofs.Common.{rules};
    ghost use Rattle.std.specs.Cmp.Rules.{comparing};

    ghost eq = { nat_eq };

    ghost laws = { Prim.search (comparing, rules) };

    fn eq(&self, other: &CapWord) -> bool {
        self.high == other.high && self.low == other.low
    }
}

impl CapWord {
    /// The word of the null capability: all zeros in memory.
    pub const NULL: CapWord = CapWord {
        low: 0,
        high: 0x1fff_fc01_8004,
    };

    /// Null with all sixteen permissions: the capability from which all others derive.
    pub const ROOT: CapWord = CapWord {
        low: 0,
        high: 0xffff_1fff_fc01_8004,
    };

    /// The word of these bits.
    #[inline]
    pub fn from_logical(bits: u128) -> Self
        ensures { result ≡ bits }
    {
        CapWord {
            low: (bits & 0xffff_ffff_ffff_ffff) as u64,
            high: (bits >> 64) as u64,
        }
    }

    /// The word's bits, below `2^128`.
    #[inline]
    pub fn logical(self) -> u128
        ensures value { result ≡ self }
        ensures range { self < 2 ^ 128 }
    {
        (self.high as u128) << 64 | self.low as u128
    }

    /// The word that these bytes of memory are, the lowest first. Sixteen zeros are null.
    #[inline]
    pub fn from_memory(bytes: [u8; 16]) -> Self
        ensures { result ≡ word_of_memory bytes }
    {
        Self::from_logical(u128::from_le_bytes(bytes) ^ Self::NULL.logical())
    }

    /// The word's bytes in memory, the lowest first.
    #[inline]
    pub fn to_memory(self) -> [u8; 16]
        ensures { result ≡ memory_bytes self }
    {
        (self.logical() ^ Self::NULL.logical()).to_le_bytes()
    }

    /// Bits 63..0.
    #[inline]
    pub fn address(self) -> u64
        ensures { result ≡ address_of self }
    {
        self.low
    }

    /// Bits 127..112: hardware permissions at bits 0 to 11, user permissions at bits 12 to 15.
    #[inline]
    pub fn perms(self) -> u16
        ensures { result ≡ perms_of self }
    {
        (self.high >> 48) as u16
    }

    /// Bit 109: set in a program counter capability, it selects capability mode.
    #[inline]
    pub fn flag(self) -> bool
        ensures { result ≡ flag_of self }
    {
        (self.high >> 45) & 1 == 1
    }

    /// Bits 108..91: the object type, below `2^18`.
    #[inline]
    pub fn otype(self) -> u32
        ensures { result ≡ otype_of self }
    {
        ((self.high >> 27) & 0x3_ffff) as u32
    }

    /// Bit 90: the exponent stands in the low bits of T and B.
    #[inline]
    pub fn ie(self) -> bool
        ensures { result ≡ ie_of self }
    {
        (self.high >> 26) & 1 == 1
    }

    /// Bits 89..78, as they stand in the word.
    #[inline]
    pub fn t_field(self) -> u16
        ensures { result ≡ t_field_of self }
    {
        ((self.high >> 14) & 0xfff) as u16
    }

    /// Bits 77..64, as they stand in the word.
    #[inline]
    pub fn b_field(self) -> u16
        ensures { result ≡ b_field_of self }
    {
        (self.high & 0x3fff) as u16
    }

    /// The word with this address and all other fields as they are.
    #[inline]
    pub fn with_address(self, address: u64) -> Self
        ensures { result ≡ with_address_of self address }
    {
        CapWord {
            low: address,
            high: self.high,
        }
    }

    /// The word with these permissions and all other fields as they are.
    #[inline]
    pub fn with_perms(self, perms: u16) -> Self
        ensures { result ≡ with_field self 112 16 perms }
    {
        CapWord {
            low: self.low,
            high: (perms as u64) << 48 | self.high & ((1 << 48) - 1),
        }
    }

    /// The word with this flag and all other fields as they are.
    #[inline]
    pub fn with_flag(self, flag: bool) -> Self
        ensures { result ≡ with_field self 109 1 (bit flag) }
    {
        CapWord {
            low: self.low,
            high: ((self.high >> 46) << 1 | flag as u64) << 45 | self.high & ((1 << 45) - 1),
        }
    }

    /// The word with this object type and all other fields as they are.
    #[inline]
    pub fn with_otype(self, otype: u32) -> Self
        requires { otype < 2 ^ 18 }
        ensures { result ≡ with_field self 91 18 otype }
    {
        CapWord {
            low: self.low,
            high: ((self.high >> 45) << 18 | otype as u64) << 27 | self.high & ((1 << 27) - 1),
        }
    }
}
