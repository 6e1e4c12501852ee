//! The laws of shown texts: what is shown for a word, an assembler reads as that word again; and what is shown of a step is what the
//! state has. Each function's contract is a law, and its body is empty. Beside them stand those of texts on bounds, of tables of
//! symbols and of listings.
#![tactic(auto)]

pub mod bounds;
pub mod listings;
pub mod tables;
pub mod why;

ghost use Rattle.std.specs.Prelude.{ℕ, ◌<◌, ◌^◌, Bool};
ghost use Rattle.text_laws.specs.ReadBack.{ReadsBack};
ghost use Rattle.text_laws.specs.TextBack.{IsWordAgain};

/// The text that is shown for a word, read by an assembler as a line, says the word again: the one instruction that it is, or else
/// the one value of four bytes.
pub fn line_back()
    ensures { (mode : Bool) (word : ℕ) → word < 2 ^ 32 → ReadsBack mode word }
{}

/// The text that is shown for a word, assembled alone, gives the same word: it is a correct text, and its image holds the word at
/// the beginning of RAM and nothing else.
pub fn text_back()
    ensures { (mode : Bool) (word : ℕ) → word < 2 ^ 32 → IsWordAgain mode word }
{}
