//! The tag of one granule.
ghost use Rattle.std.specs.Prelude.{◌≡◌, ℕ, ◌*◌, ◌<◌, ◌==◌, false, length, if◌then◌else◌};
ghost use Rattle.tag_planes.specs.Planes.{tag_at};

/// Whether a granule is tagged.
#[inline]
pub fn has_tag(planes: &[u64], granule: usize) -> bool
    requires { granule < 64 * length planes.now }
    ensures { result ≡ tag_at planes.now granule }
{
    (planes[granule / 64] >> (granule % 64)) & 1 == 1
}

/// Takes a granule's tag.
#[inline]
pub fn clear_tag(planes: &mut [u64], granule: usize)
    requires { granule < 64 * length planes.old }
    ensures len { length planes.new ≡ length planes.old }
    ensures value { (k : ℕ) → tag_at planes.new k ≡ (if k == granule then false else tag_at planes.old k) }
{
    planes[granule / 64] &= !(1 << (granule % 64));
}

/// Tags a granule, or takes its tag.
#[inline]
pub fn put_tag(planes: &mut [u64], granule: usize, tag: bool)
    requires { granule < 64 * length planes.old }
    ensures len { length planes.new ≡ length planes.old }
    ensures value { (k : ℕ) → tag_at planes.new k ≡ (if k == granule then tag else tag_at planes.old k) }
{
    if tag {
        planes[granule / 64] |= 1 << (granule % 64);
    } else {
        clear_tag(planes, granule);
    }
}
