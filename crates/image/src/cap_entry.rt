ghost use Rattle.std.specs.Prelude.{◌≡◌};
ghost use Rattle.image.specs.Image.{is_exact_range};

/// A capability that RAM holds from the start: root with the address `base`, set to `length` bytes, with these permissions
/// (as `perms` of a capability: hardware permissions at bits 0 to 11, user permissions at bits 12 to 15) and this flag.
#[derive(Clone, Copy, Debug, PartialEq, Eq)]
pub struct CapEntry {
    /// Where it stands: the address of a granule of RAM.
    pub place: u64,
    pub base: u64,
    pub length: u64,
    pub perms: u32,
    pub flag: u32,
}

/// Whether the bounds of an entry can be the `length` bytes from `base`: they end at 2^64 or before, and rounding them out
/// changes nothing.
#[tactic(auto, unfolding(crate::specs::Image::is_exact_range))]
pub fn is_exact_range(base: u64, length: u64) -> bool
    ensures { result ≡ is_exact_range base length }
{
    u128::from(base) + u128::from(length) <= 1 << 64 && cap_bounds::is_exact(base, length)
}
