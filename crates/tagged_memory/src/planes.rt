//! The tags of the granules that bytes lie in.
ghost use Rattle.std.specs.Prelude.{◌≡◌, ℕ, ◌+◌, ◌*◌, ◌^◌, ◌<◌, ◌≤◌, ◌&&◌, not, length};
ghost use Rattle.base.specs.Ram.{ram_base};
ghost use Rattle.tag_planes.specs.Planes.{tag_at};
ghost use Rattle.tagged_memory.specs.Memory.{touches};

use tag_planes::clear_tags;

/// Takes the tag of each granule that some of `size` bytes from a place lie in.
pub fn clear_granules(planes: &mut [u64], place: usize, size: usize)
    requires room { place + size ≤ 1024 * length planes.old }
    requires small { length planes.old < 2 ^ 32 }
    ensures len { length planes.new ≡ length planes.old }
    ensures cleared { (k : ℕ) → tag_at planes.new k
        ≡ (tag_at planes.old k && not (touches (ram_base + place) size (ram_base + 16 * k))) }
{
    if size > 0 {
        clear_tags(planes, place / 16, (place + size).div_ceil(16));
    }
}
