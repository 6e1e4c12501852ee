//! What an address of a command is, with labels and without.
ghost use Rattle.std.specs.Prelude.{◌≡◌, ◌-◌, ◌^◌, ℕ, [], List, Some, true};
ghost use Rattle.asm_lines.specs.Words.{number_between, read_number};
ghost use Rattle.debug_commands.specs.Address.{address_at};
ghost use Rattle.symbols.specs.Symbols.{Symbol, address_of, is_label};

/// A number is itself, whatever the labels are; without labels an address is a number and nothing else; and the text of a label is no
/// number, so that it stands for that label's address.
pub fn addresses_are_numbers_or_labels()
    ensures number { (symbols : List Symbol) (text : List ℕ) (n : ℕ) → read_number (number_between 0 (2 ^ 64 - 1) text) ≡ Some n
        → address_at symbols text ≡ Some n }
    ensures unlabelled { (text : List ℕ) → address_at [] text ≡ read_number (number_between 0 (2 ^ 64 - 1) text) }
    ensures label { (symbols : List Symbol) (text : List ℕ) → is_label text ≡ true → address_at symbols text ≡ address_of symbols text }
{}
