//! The search for a tag.
ghost use Rattle.std.specs.Prelude.{◌≡◌, ◌+◌, ◌*◌, ◌^◌, ◌<◌, ◌≤◌, ◌==◌, not, drop, length};
ghost use Rattle.std.specs.List.{position_or_len};
ghost use Rattle.tag_planes.specs.Planes.{IsNextTag};

use crate::mask::bits_from;
use crate::words::first_word;

/// The index of the first word from `start` on that isn't 0, or the number of words where there is none.
fn word_from(planes: &[u64], start: usize) -> usize
    requires { start ≤ length planes.now }
    ensures value { result ≡ start + position_or_len (λ word. not (word == 0)) (drop start planes.now) }
    ensures within { result ≤ length planes.now }
{
    start + first_word(&planes[start..])
}

/// The first tagged granule from `from` on, or the number of all granules where there is none.
pub fn next_tag(planes: &[u64], from: usize) -> usize
    requires inside { from < 64 * length planes.now }
    requires small { length planes.now < 2 ^ 32 }
    ensures { IsNextTag planes.now from result }
{
    let index = from / 64;
    let here = planes[index] & bits_from(from % 64);
    if here != 0 {
        return 64 * index + here.trailing_zeros() as usize;
    }
    let later = word_from(planes, index + 1);
    if later == planes.len() {
        return 64 * later;
    }
    64 * later + planes[later].trailing_zeros() as usize
}
