//! Laws of the instruction table, over every word and every instruction.

ghost use Rattle.std.specs.Prelude.{ℕ, ◌≡◌, Option, Some};
ghost use Rattle.isa_rows.specs.declared.operands.Insn.{Insn};
ghost use Rattle.isa_rows.specs.declared.rows.Row.{Row};
ghost use Rattle.isa_rows.specs.Insn.{Fits};
ghost use Rattle.isa_rows.specs.Line.{IsRow};
ghost use Rattle.isa_table.specs.Inverse.{IsDecoded, IsEncoded};

/// What `decode` answers for a word, encoded, is that word: the instruction fits, so that it may be
/// encoded, and whatever word encodes it is the one that was decoded.
pub fn decoded_again()
    ensures { (word : ℕ) (insn : Insn) → IsDecoded word (Some insn) → (Fits insn) × ((again : ℕ) → IsEncoded insn again → again ≡ word) }
{}

/// What `encode` gives for an instruction that fits, decoded, is that instruction.
pub fn encoded_again()
    ensures { (insn : Insn) (word : ℕ) (answer : Option Insn) → Fits insn → IsEncoded insn word → IsDecoded word answer → answer
        ≡ Some insn }
{}

/// No word is two rows.
pub fn one_row()
    ensures { (word : ℕ) (one other : Row) → IsRow word one → IsRow word other → one ≡ other }
{}
