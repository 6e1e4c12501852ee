ghost use Rattle.std.specs.Prelude.{◌↔◌, IsTrue};
ghost use Rattle.cap_bounds.specs.Record.{IsWordWellFormed, decoded, window_holds};
ghost use Rattle.cap_bounds.specs.SetAddress.{KeepsBounds};

use crate::decode;
use crate::plain_cap::PlainCap;
use crate::rep::CapRep;
use cap_format::CapWord;

/// Whether a word may be tagged: its bounds are a capability's, and it is the canonical encoding of what it decodes to.
pub fn is_well_formed(word: CapWord) -> bool
    ensures { IsTrue result ↔ IsWordWellFormed word }
{
    let base = decode::base(word);
    let top = decode::top(word);
    match PlainCap::of(
        base,
        top,
        word.address(),
        word.perms(),
        word.flag(),
        word.otype(),
    ) {
        Some(meant) => meant.word() == word,
        None => false,
    }
}

/// Whether a word's bounds stay with this address in place of its own.
pub fn representable(word: CapWord, address: u64) -> bool
    ensures bounds { IsTrue result ↔ KeepsBounds word address }
    ensures window { IsWordWellFormed word → (IsTrue result ↔ IsTrue (window_holds (decoded word) address)) }
{
    let moved = word.with_address(address);
    decode::base(moved) == decode::base(word) && decode::top(moved) == decode::top(word)
}
