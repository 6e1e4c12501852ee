ghost use Rattle.std.specs.Prelude.{◌≡◌, ◌+◌, ◌^◌, ◌<◌, ◌&&◌, nat_le, IsTrue};
ghost use Rattle.cap_bounds.specs.Record.{IsWordWellFormed};
ghost use Rattle.cap_bounds.specs.CapValue.{CapValue, IsSound, value_of, word_of, is_tagged, value_base, value_top, value_address};
ghost use Rattle.cap_bounds.specs.CapValue.{value_perms, value_flag, value_otype, without_tag};
ghost use Rattle.cap_bounds.specs.SetAddress.{at_address};
ghost use Rattle.cap_bounds.specs.SetBounds.{with_bounds, bounds_exact, HasRoundedBounds, LiesWithin};

use cap_format::CapWord;

/// A capability or 128 bits of data, however it is kept.
///
/// Every call is a function of the value that it stands for.
pub trait CapRep: Copy {
    /// The capability value that it stands for.
    ghost value: { Self → CapValue };

    /// What the word means: with a tag its capability, without one its bits.
    fn from_word(word: CapWord, tag: bool) -> Self
        requires { IsTrue tag → IsWordWellFormed word }
        ensures { value result ≡ value_of word tag };

    /// The 128 bits: of a capability its canonical word.
    fn word(self) -> CapWord
        ensures value { result ≡ word_of (value self) }
        ensures well_formed { IsTrue (is_tagged (value self)) → IsWordWellFormed (word_of (value self)) };

    /// Whether it is a capability.
    fn tag(self) -> bool
        ensures { result ≡ is_tagged (value self) };

    /// The address.
    fn address(self) -> u64
        ensures { result ≡ value_address (value self) };

    /// The first address of the bounds.
    fn base(self) -> u64
        ensures { result ≡ value_base (value self) };

    /// The address past the bounds, below `2^65`.
    fn top(self) -> u128
        ensures value { result ≡ value_top (value self) }
        ensures range { result < 2 ^ 65 };

    /// Whether the bounds hold the `size` bytes from an address, in whole numbers.
    fn holds(self, address: u64, size: u64) -> bool
        ensures { result ≡ (nat_le (value_base (value self)) address && nat_le (address + size) (value_top (value self))) };

    /// The permissions: hardware permissions at bits 0 to 11, user permissions at bits 12 to 15.
    fn perms(self) -> u16
        ensures { result ≡ value_perms (value self) };

    /// The flag.
    fn flag(self) -> bool
        ensures { result ≡ value_flag (value self) };

    /// The object type, below `2^18`.
    fn otype(self) -> u32
        ensures { result ≡ value_otype (value self) };

    /// The capability with this address, if it is one, is unsealed and its bounds stay; else its bits with this address.
    fn set_address(self, address: u64) -> Self
        ensures { value result ≡ at_address (value self) address };

    /// The value with the bounds of `length` bytes from its address, rounded out, and whether rounding changed nothing.
    ///
    /// The request is `[address, address + length)`, in whole numbers. Fewer than 4096 bytes stay as they are. A longer
    /// request is rounded out to multiples of the least granule that serves: its base down and its top up, the top then
    /// modulo `2^65`. Address, permissions, flag and object type stay. The result is a capability exactly if the operand is
    /// an unsealed capability whose bounds hold the request; else it is data, with the same bounds and fields.
    fn set_bounds(self, length: u64) -> (Self, bool)
        ensures value { value result.0 ≡ with_bounds (value self) length }
        ensures exact { result.1 ≡ bounds_exact (value self) length }
        ensures bounds { HasRoundedBounds (value self) length (value result.0) }
        ensures within { IsTrue (is_tagged (value result.0)) → LiesWithin (value result.0) (value self) };

    /// The same bits without the tag.
    fn clear_tag(self) -> Self
        ensures { value result ≡ without_tag (value self) };

    /// A capability is well-formed, and data has 128 bits.
    ghost valid: { (c : Self) → IsSound (value c) };
}
