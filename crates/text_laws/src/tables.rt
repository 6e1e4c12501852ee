//! Tables of symbols: what is written is read, and the name of an address is the first of its names.
ghost use Rattle.std.specs.Prelude.{◌≡◌, ℕ, List, None, slice_get};
ghost use Rattle.std.specs.List.{AllByRecursion};
ghost use Rattle.symbols.specs.Symbols.{HasLine, Symbol, faulty_line, name_at, names_at, symbols_of, table_text};

/// The lines of symbols whose addresses have 64 bits and whose names are labels are a table without a fault, and say those symbols.
pub fn written_is_read()
    ensures correct { (symbols : List Symbol) → AllByRecursion HasLine symbols → faulty_line (table_text symbols) ≡ None }
    ensures symbols { (symbols : List Symbol) → AllByRecursion HasLine symbols → symbols_of (table_text symbols) ≡ symbols }
{}

/// The name of an address is the first of its names.
pub fn the_name_is_the_first()
    ensures { (symbols : List Symbol) → (address : ℕ) → name_at symbols address ≡ slice_get (names_at symbols address) 0 }
{}
