//! Laws of the word's definitions, and what its constants are. A function without a result does nothing: it promises one law.

ghost use Rattle.std.specs.Prelude.{◌≡◌, ℕ, ◌+◌, ◌^◌, ◌<◌, ◌≤◌, ◌⊎◌, false, List, length, slice_index};
ghost use Rattle.base.specs.Bits.{field};
ghost use Rattle.base.specs.ObjectType.{unsealed_type};
ghost use Rattle.cap_format.specs.Word.{address_of, otype_of, flag_of, perms_of, with_field, null_word, memory_bytes, word_of_memory};

use crate::word::CapWord;

/// Null: no permission, no seal, the flag clear, and address 0.
pub fn null() -> CapWord
    ensures word { result ≡ null_word }
    ensures perms { perms_of result ≡ 0 }
    ensures otype { otype_of result ≡ unsealed_type }
    ensures flag { flag_of result ≡ false }
    ensures address { address_of result ≡ 0 }
{
    CapWord::NULL
}

/// Root: null with all sixteen permissions.
pub fn root() -> CapWord
    ensures { result ≡ with_field null_word 112 16 0xffff }
{
    CapWord::ROOT
}

/// A word that goes to memory comes back.
pub fn word_to_memory_and_back()
    ensures { (w : ℕ) → w < 2 ^ 128 → word_of_memory (memory_bytes w) ≡ w }
{}

/// Sixteen bytes that are read as a word come back.
pub fn memory_to_word_and_back()
    ensures { (bytes : List ℕ) → length bytes ≡ 16 → ((k : ℕ) → slice_index bytes k < 256)
        → memory_bytes (word_of_memory bytes) ≡ bytes }
{}

/// A field that is replaced reads as what was put there.
pub fn new_field_reads_back()
    ensures { (w k m v : ℕ) → v < 2 ^ m → field (with_field w k m v) k m ≡ v }
{}

/// A field that is replaced leaves every other field as it was.
pub fn other_fields_stay()
    ensures { (w k m v : ℕ) → v < 2 ^ m → (j n : ℕ) → (j + n ≤ k) ⊎ (k + m ≤ j)
        → field (with_field w k m v) j n ≡ field w j n }
{}
