ghost use Rattle.std.specs.Prelude.{◌≡◌, ◌^◌, ◌<◌, ◌≤◌, ◌↔◌, ◌-◌, IsTrue, IfSome, IsSome};
ghost use Rattle.cap_format.specs.Word.{with_address_of};
ghost use Rattle.cap_bounds.specs.Record.{IsWellFormed, IsWordWellFormed, has_exponent, exponent_for, alignment_for, is_in_window, encoded};
ghost use Rattle.cap_bounds.specs.Record.{decoded, record_with};
ghost use Rattle.cap_bounds.specs.CapValue.{CapValue, Cap, IsSound, value_of, word_of, is_tagged, value_base, value_top, value_address};
ghost use Rattle.cap_bounds.specs.CapValue.{value_perms, value_flag, value_otype, without_tag};
ghost use Rattle.cap_bounds.specs.SetAddress.{at_address, data_at};
ghost use Rattle.cap_bounds.specs.PlainCap.{plain_value, record_of};

use crate::capability::{Bits, Capability};
use crate::rep::CapRep;
use crate::set_bounds::bounded;
use crate::{decode, encode};
use base::otype;
use cap_format::CapWord;

/// A capability as a record of its bounds and fields, or a word without a tag: the plain form, slow and easy to believe.
#[derive(Clone, Copy, Debug, PartialEq, Eq)]
pub enum PlainCap {
    /// A capability.
    Tagged(Capability),
    /// 128 bits of data.
    Untagged(Bits),
}

impl PlainCap {
    /// The capability with these bounds and fields, or `None` where the record isn't well-formed.
    ///
    /// `base` and `address` are below 2^64, `top` at most 2^64; hardware permissions are bits 0 to 11 of `perms`, user
    /// permissions bits 12 to 15.
    pub fn of(
        base: u64,
        top: u128,
        address: u64,
        perms: u16,
        flag: bool,
        otype: u32,
    ) -> Option<PlainCap>
        ensures some { IsSome result ↔ IsWellFormed (record_with base top address perms flag otype) }
        ensures value { IfSome result (λ c. plain_value c ≡ Cap (record_with base top address perms flag otype)) }
    {
        if top > decode::power(64) || u128::from(base) > top || otype >= 0x4_0000 {
            return None;
        }
        let length = top - u128::from(base);
        let alignment = encode::alignment(length);
        let aligned = u128::from(base) % alignment == 0 && top % alignment == 0;
        if !aligned || !encode::in_window(encode::exponent(length), base, address) {
            return None;
        }
        Some(PlainCap::Tagged(Capability {
            base,
            top,
            address,
            perms,
            flag,
            otype,
        }))
    }
}

/// The bits of a value with another address.
fn data_at(c: PlainCap, address: u64) -> PlainCap
    ensures { plain_value result ≡ data_at (plain_value c) address }
{
    PlainCap::Untagged(Bits {
        bits: c.word().with_address(address).logical(),
    })
}

/// The capability with another address, or its bits where its bounds would not stay or it is sealed.
fn moved(c: Capability, address: u64) -> PlainCap
    ensures { plain_value result ≡ at_address (Cap (record_of c)) address }
{
    if c.otype == otype::UNSEALED && encode::window_holds(c, address) {
        PlainCap::Tagged(Capability {
            base: c.base,
            top: c.top,
            address,
            perms: c.perms,
            flag: c.flag,
            otype: c.otype,
        })
    } else {
        data_at(PlainCap::Tagged(c), address)
    }
}

impl CapRep for PlainCap {
    ghost use Rattle.cap_bounds.specs.PlainCap.{plain_value, plain_sound};

    ghost value = { plain_value };

    fn from_word(word: CapWord, tag: bool) -> Self {
        if tag {
            PlainCap::Tagged(Capability {
                base: decode::base(word),
                top: decode::top(word),
                address: word.address(),
                perms: word.perms(),
                flag: word.flag(),
                otype: word.otype(),
            })
        } else {
            PlainCap::Untagged(Bits {
                bits: word.logical(),
            })
        }
    }

    fn word(self) -> CapWord {
        match self {
            PlainCap::Tagged(c) => encode::word(c),
            PlainCap::Untagged(w) => CapWord::from_logical(w.bits),
        }
    }

    fn tag(self) -> bool {
        match self {
            PlainCap::Tagged(_) => true,
            PlainCap::Untagged(_) => false,
        }
    }

    fn address(self) -> u64 {
        match self {
            PlainCap::Tagged(c) => c.address,
            PlainCap::Untagged(w) => CapWord::from_logical(w.bits).address(),
        }
    }

    fn base(self) -> u64 {
        match self {
            PlainCap::Tagged(c) => c.base,
            PlainCap::Untagged(w) => decode::base(CapWord::from_logical(w.bits)),
        }
    }

    fn top(self) -> u128 {
        match self {
            PlainCap::Tagged(c) => c.top,
            PlainCap::Untagged(w) => decode::top(CapWord::from_logical(w.bits)),
        }
    }

    fn holds(self, address: u64, size: u64) -> bool {
        self.base() <= address && u128::from(address) + u128::from(size) <= self.top()
    }

    fn perms(self) -> u16 {
        match self {
            PlainCap::Tagged(c) => c.perms,
            PlainCap::Untagged(w) => CapWord::from_logical(w.bits).perms(),
        }
    }

    fn flag(self) -> bool {
        match self {
            PlainCap::Tagged(c) => c.flag,
            PlainCap::Untagged(w) => CapWord::from_logical(w.bits).flag(),
        }
    }

    fn otype(self) -> u32 {
        match self {
            PlainCap::Tagged(c) => c.otype,
            PlainCap::Untagged(w) => CapWord::from_logical(w.bits).otype(),
        }
    }

    fn set_address(self, address: u64) -> Self {
        match self {
            PlainCap::Tagged(c) => moved(c, address),
            PlainCap::Untagged(_) => data_at(self, address),
        }
    }

    fn set_bounds(self, length: u64) -> (Self, bool) {
        bounded(self, length)
    }

    fn clear_tag(self) -> Self {
        PlainCap::Untagged(Bits {
            bits: self.word().logical(),
        })
    }

    ghost valid = { plain_sound };
}
