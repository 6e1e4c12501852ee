ghost use Rattle.std.specs.Prelude.{◌^◌, ◌<◌, IsTrue};
ghost use Rattle.cap_bounds.specs.Record.{IsWordWellFormed};

use cap_format::CapWord;

/// A capability or 128 bits of data as its word and its tag: the compressed form.
///
/// Its bounds are read off the word each time that they are asked for.
#[derive(Clone, Copy, Debug, PartialEq, Eq)]
pub struct WordCap {
    pub(crate) word: CapWord,
    pub(crate) tag: bool,
    ghost in_range: { word < 2 ^ 128 },
    ghost well_formed: { IsTrue tag → IsWordWellFormed word },
}
