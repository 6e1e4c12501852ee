ghost use Rattle.std.specs.Prelude.{◌≡◌, ◌+◌, ◌*◌, ◌-◌, ◌^◌, ◌<◌, ◌≤◌, drop, length, take};
ghost use Rattle.base.specs.Ram.{ram_base};

use base::ram;
use tag_planes::next_tag;

/// An iterator over the addresses of tagged granules, ascending.
#[derive(Debug, Drop)]
pub struct Tagged<'a> {
    /// The tags of RAM's granules, 64 a word.
    planes: &'a [u64],
    /// The number of the first granule that is left.
    next: usize,
    /// The number of the first granule past those that are left.
    end: usize,
    ghost within: { end ≤ 64 * length planes.now },
    ghost small: { length planes.now < 2 ^ 32 },
}

impl<'a> Tagged<'a> {
    ghost use Rattle.tag_planes.specs.Planes.{tags_of};
    ghost use Rattle.tagged_memory.specs.Tagged.{addresses_of, tagged_rest};

    /// The tagged ones of the granules from `first` on and below `end`.
    pub(crate) fn new(planes: &'a [u64], first: usize, end: usize) -> Self
        requires within { end ≤ 64 * length planes.now }
        requires small { length planes.now < 2 ^ 32 }
        ensures { tagged_rest result ≡ addresses_of (ram_base + 16 * first) (take (end - first) (drop first (tags_of planes.now))) }
    {
        Tagged {
            planes,
            next: first,
            end,
        }
    }
}

impl<'a> Iterator for Tagged<'a> {
    ghost use Rattle.std.specs.Iterator.{YieldsFirst, item_count};
    ghost use Rattle.tagged_memory.specs.Tagged.{tagged_rest};

    type Item = u64;

    ghost next_gives = { YieldsFirst tagged_rest };

    ghost remaining = { item_count tagged_rest };

    fn next(&mut self) -> Option<u64> {
        if self.next >= self.end {
            return None;
        }
        let granule = next_tag(self.planes, self.next);
        if granule >= self.end {
            return None;
        }
        self.next = granule + 1;
        Some(ram::BASE + 16 * granule as u64)
    }
}
