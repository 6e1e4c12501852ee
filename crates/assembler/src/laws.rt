//! Laws of what a text means: the image and the labels are those of its statements, one by one.

ghost use Rattle.std.specs.Prelude.{◌≡◌, ◌≤◌, ◌==◌, ℕ, Bool, List, None};
ghost use Rattle.base.specs.Ram.{ram_base};
ghost use Rattle.assembler.specs.Places.{lines_of, symbols_of};
ghost use Rattle.assembler.specs.Pieces.{text_pieces, count_bytes, AreWorthTheirPlaces};
ghost use Rattle.assembler.specs.Text.{text_fault, text_image};

/// In a correct text each statement's bytes stand in the image at its place, and each byte of the image is of exactly one statement:
/// whatever is asked of addresses and bytes, the image has as many such bytes as the statements, and at no address more than one.
pub fn bytes_are_of_statements()
    ensures same { (text : List ℕ) (test : ℕ → ℕ → Bool) → text_fault text ≡ None
        → count_bytes test (text_image text).sections ≡ count_bytes test (text_pieces text) }
    ensures once { (text : List ℕ) (address : ℕ) → text_fault text ≡ None
        → count_bytes (λ a b. a == address) (text_image text).sections ≤ 1 }
{}

/// In a correct text each label is worth the place of its line.
pub fn labels_are_places()
    ensures { (text : List ℕ) → text_fault text ≡ None → AreWorthTheirPlaces (symbols_of text) ram_base (lines_of text) }
{}
