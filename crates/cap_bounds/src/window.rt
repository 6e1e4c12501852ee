//! The window of bounds: the addresses with which bounds stay exactly (UCAM-CL-TR-987, CHERI Concentrate, representable space).
ghost use Rattle.std.specs.Prelude.{◌≡◌, ◌^◌, ◌≤◌};
ghost use Rattle.cap_bounds.specs.Mantissa.{exponent_of};
ghost use Rattle.cap_bounds.specs.WindowEnds.{window_first, window_last, window_place, window_size};

use crate::decode::exponent;
use cap_format::CapWord;

/// The window of bounds, by their exponent and their base.
#[derive(Clone, Copy)]
pub struct Window {
    pub e: u32,
    pub base: u64,
    ghost most: { e ≤ 52 },
}

impl Window {
    /// That of bounds from `base` on, with the exponent of a word.
    pub fn of(word: CapWord, base: u64) -> Window
        ensures exponent { result.e ≡ exponent_of word }
        ensures base { result.base ≡ base }
    {
        Window {
            e: exponent(word),
            base,
        }
    }

    /// Its first address.
    #[tactic(auto, unfolding(crate::specs::WindowEnds::window_first))]
    pub fn first(self) -> u64
        ensures { result ≡ window_first self.e self.base }
    {
        if self.e >= 50 {
            return 0;
        }
        let step = self.e + 11;
        (self.base >> step << step).wrapping_sub(1 << step)
    }

    /// How many addresses it has.
    #[tactic(auto, unfolding(crate::specs::WindowEnds::window_size), using(crate::specs::WindowEndsLaws::sizes))]
    pub fn size(self) -> u128
        ensures value { result ≡ window_size self.e }
        ensures some { 16384 ≤ result }
        ensures high { result ≤ 2 ^ 64 }
    {
        if self.e >= 50 {
            1 << 64
        } else {
            8 << (self.e + 11)
        }
    }

    /// Its last address.
    #[tactic(auto, unfolding(crate::specs::WindowEnds::window_last))]
    pub fn last(self) -> u64
        ensures { result ≡ window_last self.e self.base }
    {
        self.first().wrapping_add((self.size() - 1) as u64)
    }

    /// How far an address lies past its first one, going round.
    #[tactic(auto, unfolding(crate::specs::WindowEnds::window_place))]
    pub fn place(self, address: u64) -> u64
        ensures { result ≡ window_place self.e self.base address }
    {
        address.wrapping_sub(self.first())
    }
}
