//! A listing without names.
ghost use Rattle.std.specs.Prelude.{◌≡◌, ℕ, Bool, None};
ghost use Rattle.disassembler.specs.Shown.{byte_line, word_line};
ghost use Rattle.image_listing.specs.Listing.{byte_lines, word_lines};

/// Without a table of symbols the lines of a word are its line alone, and so are those of a byte.
pub fn lines_without_names()
    ensures words { (mode : Bool) → (address : ℕ) → (word : ℕ) → word_lines None mode address word ≡ word_line mode address word }
    ensures bytes { (address : ℕ) → (byte : ℕ) → byte_lines None address byte ≡ byte_line address byte }
{}
