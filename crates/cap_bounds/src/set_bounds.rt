//! Setting the bounds of a plain capability.

ghost use Rattle.std.specs.Prelude.{◌≡◌, ◌≤◌};
ghost use Rattle.cap_bounds.specs.Record.{encoded_at, record_with};
ghost use Rattle.cap_bounds.specs.CapValue.{Data, value_address, value_flag, value_otype, value_perms};
ghost use Rattle.cap_bounds.specs.SetBounds.{bounds_exact, may_bound, with_bounds};
ghost use Rattle.cap_bounds.specs.PlainCap.{plain_value};

use crate::capability::{Bits, Capability};
use crate::plain_cap::PlainCap;
use crate::rep::CapRep;
use crate::{decode, encode, rounding};
use base::otype;
use cap_format::CapWord;

/// Whether the value is an unsealed capability whose bounds hold the request.
#[tactic(auto, unfolding(crate::specs::SetBounds::may_bound))]
fn may_bound(c: PlainCap, length: u64) -> bool
    ensures { result ≡ may_bound (plain_value c) length }
{
    let end = u128::from(c.address()) + u128::from(length);
    c.tag() && c.otype() == otype::UNSEALED && c.base() <= c.address() && end <= c.top()
}

/// The bits of a value with these bounds, encoded at an exponent, internal or not.
#[tactic(auto, unfolding(crate::specs::Record::encoded_at))]
fn data_with(c: PlainCap, base: u64, top: u128, e: u32, ie: bool) -> PlainCap
    requires { e ≤ 52 }
    ensures { plain_value result ≡ Data (encoded_at e ie
        (record_with base top (value_address (plain_value c)) (value_perms (plain_value c)) (value_flag (plain_value c))
        (value_otype (plain_value c)))) }
{
    let fields = encode::fields(c.perms(), c.flag(), c.otype());
    let bounds = encode::bounds(base, top, e, ie);
    PlainCap::Untagged(Bits {
        bits: CapWord::from_logical(fields + bounds + u128::from(c.address())).logical(),
    })
}

/// The value with the bounds of so many bytes from its address, rounded out, and whether rounding changed nothing.
pub(crate) fn bounded(c: PlainCap, length: u64) -> (PlainCap, bool)
    ensures value { plain_value result.0 ≡ with_bounds (plain_value c) length }
    ensures exact { result.1 ≡ bounds_exact (plain_value c) length }
{
    let address = c.address();
    let end = u128::from(address) + u128::from(length);
    let rounded = rounding::rounded_out(address, end);
    let top = rounded.top % (2 * decode::power(64));
    if may_bound(c, length) {
        let set = Capability {
            base: rounded.base,
            top,
            address,
            perms: c.perms(),
            flag: c.flag(),
            otype: c.otype(),
        };
        (PlainCap::Tagged(set), rounded.exact)
    } else {
        let e = rounding::exponent(address, end);
        let set = data_with(c, rounded.base, top, e, length >= 4096);
        (set, rounded.exact)
    }
}
