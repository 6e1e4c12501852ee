//! The tags of granules in a row.
ghost use Rattle.std.specs.Prelude.{◌≡◌, ◌≢◌, ◌⊎◌, ℕ, ◌*◌, ◌/◌, ◌%◌, ◌<◌, ◌≤◌, ◌==◌, ◌&&◌, false, length};
ghost use Rattle.std.specs.Int.{bit_at};
ghost use Rattle.tag_planes.specs.Planes.{tag_at};

use crate::mask::{bits_below, bits_from};

/// Takes the tags of a word's granules but those whose bit in `kept` is 1.
fn keep_tags(planes: &mut [u64], index: usize, kept: u64)
    requires { index < length planes.old }
    ensures len { length planes.new ≡ length planes.old }
    ensures here { (k : ℕ) → k / 64 ≡ index → tag_at planes.new k ≡ (tag_at planes.old k && bit_at kept (k % 64) == 1) }
    ensures elsewhere { (k : ℕ) → k / 64 ≢ index → tag_at planes.new k ≡ tag_at planes.old k }
{
    planes[index] &= kept;
}

/// Takes the tags of all granules of the words from `first` on and below `end`.
fn clear_words(planes: &mut [u64], first: usize, end: usize)
    requires order { first ≤ end }
    requires room { end ≤ length planes.old }
    ensures len { length planes.new ≡ length planes.old }
    ensures here { (k : ℕ) → first ≤ k / 64 → k / 64 < end → tag_at planes.new k ≡ false }
    ensures elsewhere { (k : ℕ) → (k / 64 < first) ⊎ (end ≤ k / 64) → tag_at planes.new k ≡ tag_at planes.old k }
{
    planes[first..end].fill(0);
}

/// Takes the tags of the granules from `first` on and below `end`, whole words at once.
pub fn clear_tags(planes: &mut [u64], first: usize, end: usize)
    requires order { first < end }
    requires room { end ≤ 64 * length planes.old }
    ensures len { length planes.new ≡ length planes.old }
    ensures cleared { (k : ℕ) → first ≤ k → k < end → tag_at planes.new k ≡ false }
    ensures kept { (k : ℕ) → (k < first) ⊎ (end ≤ k) → tag_at planes.new k ≡ tag_at planes.old k }
{
    let (first_word, last_word) = (first / 64, end / 64);
    let before = bits_below(first % 64);
    let after = bits_from(end % 64);
    if first_word == last_word {
        keep_tags(planes, first_word, before | after);
    } else {
        keep_tags(planes, first_word, before);
        clear_words(planes, first_word + 1, last_word);
        if last_word < planes.len() {
            keep_tags(planes, last_word, after);
        }
    }
}
