//! Granules of RAM in a row.
ghost use Rattle.std.specs.Prelude.{◌≡◌, ◌⊎◌, ℕ, ◌+◌, ◌-◌, ◌/◌, ◌^◌, ◌<◌, ◌≤◌, min};
ghost use Rattle.base.specs.Ram.{ram_base};
ghost use Rattle.reached.specs.Search.{IsBetween, granules_of};

use base::ram;
use cap_bounds::CapRep;

/// The granules of RAM from number `first` on and below number `end`.
#[derive(Clone, Copy, Debug)]
pub(crate) struct Span {
    pub(crate) first: usize,
    pub(crate) end: usize,
}

/// How many of the first `count` granules of RAM begin below an address.
fn granules_below(count: usize, address: u64) -> usize
    requires { count < 2 ^ 32 }
    ensures { result ≡ min count ((address - ram_base + 15) / 16) }
{
    let below = address.saturating_sub(ram::BASE);
    below.div_ceil(16).min(count as u64) as usize
}

/// How many of the first `count` granules of RAM end at an address or below it.
fn granules_within(count: usize, address: u128) -> usize
    requires { count < 2 ^ 32 }
    ensures { result ≡ min count ((address - ram_base) / 16) }
{
    let within = address.saturating_sub(ram::BASE as u128);
    (within / 16).min(count as u128) as usize
}

impl Span {
    /// Those of the first `count` granules of RAM that lie wholly in a capability's bounds.
    pub(crate) fn of<C: CapRep>(count: usize, cap: C) -> Self
        requires { count < 2 ^ 32 }
        ensures { result ≡ granules_of count (C.value cap) }
    {
        Span {
            first: granules_below(count, cap.base()),
            end: granules_within(count, cap.top()),
        }
    }

    /// What is left of another span beside this one: an end of it that lies in this one is cut off, and both where all of it does.
    pub(crate) fn beside(self, other: Span) -> Span
        ensures within { result.end ≤ other.end }
        ensures part { (g : ℕ) → IsBetween result.first result.end g → IsBetween other.first other.end g }
        ensures rest { (g : ℕ) → IsBetween other.first other.end g → IsBetween self.first self.end g ⊎ IsBetween result.first result.end g }
    {
        let cuts_first = self.first <= other.first && other.first < self.end;
        let cuts_end = self.first < other.end && other.end <= self.end;
        Span {
            first: if cuts_first { self.end } else { other.first },
            end: if cuts_end { self.first } else { other.end },
        }
    }

    /// Two spans as one where they meet, and else the longer of them.
    pub(crate) fn joined(self, other: Span) -> Span
        ensures { (g : ℕ) → IsBetween result.first result.end g → IsBetween self.first self.end g ⊎ IsBetween other.first other.end g }
    {
        if self.first <= other.end && other.first <= self.end {
            return Span {
                first: self.first.min(other.first),
                end: self.end.max(other.end),
            };
        }
        if self.end.saturating_sub(self.first) < other.end.saturating_sub(other.first) {
            other
        } else {
            self
        }
    }
}
