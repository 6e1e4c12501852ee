//! A request for bounds, and what CSetBounds makes of root for it.

ghost use Rattle.std.specs.Prelude.{◌≡◌, ◌+◌, ◌-◌, ◌^◌, ◌≤◌, true, false, IsTrue, length as bytes_of};
ghost use Rattle.cap_bounds.specs.CapValue.{is_tagged, value_base, value_top, word_of};
ghost use Rattle.cap_bounds.specs.Root.{root};
ghost use Rattle.cap_bounds.specs.Rounding.{rounded_base, rounded_top, rounding_exponent, rounding_granule};
ghost use Rattle.cap_bounds.specs.SetBounds.{HasRoundedBounds};
ghost use Rattle.bounds_text.specs.BoundsText.{set, standing};

use cap_bounds::{CapRep, Window};
use cap_format::CapWord;

/// Root with an address, in integer mode.
fn root_at<C: CapRep>(address: u64) -> C
    ensures { C.value result ≡ root address false }
{
    C::from_word(CapWord::ROOT.with_flag(false).with_address(address), true)
}

/// A request for bounds, and what CSetBounds makes of root for it: of these values both its text and its object are made.
#[derive(Clone, Copy)]
pub struct Request {
    /// The address that is asked for.
    pub base: u64,
    /// How many bytes are asked for.
    pub length: u64,
    /// Whether it gives a capability.
    pub tag: bool,
    /// The logical form of the result's word.
    pub logical: u128,
    /// The rounded top, modulo `2^65`; the rounded base is that of the window.
    pub top: u128,
    /// The window of the bounds.
    pub window: Window,
    ghost tagged: { tag ≡ is_tagged (set base length) },
    ghost word: { logical ≡ word_of (set base length) },
    ghost begins: { window.base ≡ value_base (set base length) },
    ghost low: { window.base ≡ rounded_base base (base + length) },
    ghost high: { top ≡ value_top (set base length) },
    ghost within: { IsTrue (is_tagged (set base length)) → top ≤ 2 ^ 64 },
    ghost rounded: { HasRoundedBounds (root base false) length (set base length) },
    ghost exponent: { window.e ≡ rounding_exponent base (base + length) },
}

impl Request {
    /// The request for `length` bytes from `base`.
    #[tactic(auto, using(crate::proofs::SetBounds::exponent_of_set))]
    pub fn of<C: CapRep>(base: u64, length: u64) -> Request
        ensures base { result.base ≡ base }
        ensures length { result.length ≡ length }
    {
        let (capability, _) = root_at::<C>(base).set_bounds(length);
        Request {
            base,
            length,
            tag: capability.tag(),
            logical: capability.word().logical(),
            top: capability.top(),
            window: Window::of(capability.word(), capability.base()),
        }
    }

    /// Where it ends, up to `2^65 - 2`.
    pub fn end(self) -> u128
        ensures { result ≡ self.base + self.length }
    {
        u128::from(self.base) + u128::from(self.length)
    }

    /// What it is rounded out to multiples of.
    #[tactic(auto, unfolding(cap_bounds::specs::Rounding::rounding_granule))]
    pub fn granule(self) -> u64
        ensures { result ≡ rounding_granule self.base (self.base + self.length) }
    {
        if self.length < 4096 {
            1
        } else {
            1 << (self.window.e + 3)
        }
    }

    /// How many bytes rounding adds above its end.
    #[tactic(auto, using(crate::proofs::SetBounds::added_found, crate::proofs::SetBounds::added_few))]
    pub fn added_above(self) -> u64
        ensures { result ≡ rounded_top self.base (self.base + self.length) - (self.base + self.length) }
    {
        ((self.top + (1 << 65) - self.end()) % (1 << 65)) as u64
    }

    /// Where an address lies: `in bounds`, `in the window` or `outside`.
    #[tactic(auto, unfolding(crate::specs::BoundsText::standing), using(crate::proofs::SetBounds::tried_by_place))]
    pub fn standing(self, address: u64) -> &'static str
        requires { self.tag ≡ true }
        ensures text { result.now ≡ standing self.base self.length address }
        ensures short { bytes_of result.now ≤ 13 }
    {
        let window = self.window;
        if window.base <= address && u128::from(address) < self.top {
            "in bounds"
        } else if window.place(address) <= window.place(window.last()) {
            "in the window"
        } else {
            "outside"
        }
    }
}
