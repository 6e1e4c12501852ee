//! Words: what 128 bits say, tagged or not.

ghost use Rattle.std.specs.Prelude.{◌≡◌, ◌+◌, ◌*◌, ◌^◌, ◌<◌, ◌↔◌, IsTrue};
ghost use Rattle.cap_format.specs.Word.{memory_bytes, word_of_memory, perms_of, otype_of, flag_of};
ghost use Rattle.cap_bounds.specs.Window.{base_of_word, top_of_word};
ghost use Rattle.cap_bounds.specs.Record.{IsWordWellFormed};
ghost use Rattle.cap_bounds.specs.CapValue.{Data};
ghost use Rattle.cap_bounds.specs.SetAddress.{KeepsBounds};
ghost use Rattle.word_cap.specs.WordCap.{word_value};
ghost use Rattle.c_types.specs.Words.{bits, number};
ghost use Rattle.c_types.specs.Halves.{joined};

use c_types::{CheriNumber, CheriWord, halves_of, word_of};
use cap_bounds::CapRep;
use cap_format::CapWord;
use word_cap::WordCap;

#[inline(always)]
fn data(word: CheriWord) -> WordCap
    ensures { word_value result ≡ Data (bits word) }
{
    WordCap::from_word(word_of(word), false)
}

/// The first address of a word's bounds.
#[unsafe(no_mangle)]
pub extern "C" fn cheri_base(word: CheriWord) -> u64
    ensures { result ≡ base_of_word (bits word) }
{
    data(word).base()
}

/// The address past a word's bounds, below 2^65.
#[unsafe(no_mangle)]
pub extern "C" fn cheri_top(word: CheriWord) -> CheriNumber
    ensures value { number result ≡ top_of_word (bits word) }
    ensures range { result.high < 2 }
{
    let top = data(word).top();
    CheriNumber {
        low: (top & 0xffff_ffff_ffff_ffff) as u64,
        high: (top >> 64) as u64,
    }
}

/// The permissions.
#[unsafe(no_mangle)]
pub extern "C" fn cheri_perms(word: CheriWord) -> u16
    ensures { result ≡ perms_of (bits word) }
{
    word_of(word).perms()
}

/// The object type.
#[unsafe(no_mangle)]
pub extern "C" fn cheri_otype(word: CheriWord) -> u32
    ensures { result ≡ otype_of (bits word) }
{
    word_of(word).otype()
}

/// The flag.
#[unsafe(no_mangle)]
pub extern "C" fn cheri_flag(word: CheriWord) -> bool
    ensures { result ≡ flag_of (bits word) }
{
    word_of(word).flag()
}

/// Whether a word may be tagged.
#[unsafe(no_mangle)]
pub extern "C" fn cheri_is_well_formed(word: CheriWord) -> bool
    ensures { IsTrue result ↔ IsWordWellFormed (bits word) }
{
    word_cap::is_well_formed(word_of(word))
}

/// Whether a word's bounds stay with this address.
#[unsafe(no_mangle)]
pub extern "C" fn cheri_is_representable(word: CheriWord, address: u64) -> bool
    ensures { IsTrue result ↔ KeepsBounds (bits word) address }
{
    word_cap::keeps_bounds(word_of(word), address)
}

/// The word that 16 bytes of memory are.
#[unsafe(no_mangle)]
pub extern "C" fn cheri_from_memory(bytes: &[u8; 16]) -> CheriWord
    ensures { bits result ≡ word_of_memory bytes.now }
{
    halves_of(CapWord::from_memory(*bytes))
}

/// A word's 16 bytes in memory.
#[unsafe(no_mangle)]
pub extern "C" fn cheri_to_memory(word: CheriWord, bytes: &mut [u8; 16])
    ensures { bytes.new ≡ memory_bytes (bits word) }
{
    *bytes = word_of(word).to_memory();
}
