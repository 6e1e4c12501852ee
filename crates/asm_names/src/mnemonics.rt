ghost use Rattle.std.specs.Prelude.{◌≡◌, find};
ghost use Rattle.asm_names.specs.Mnemonic.{is_named};
ghost use Rattle.asm_names.specs.Mnemonic.{mnemonic as mnemonic_of, row_named as row_of};

use isa_rows::{ROWS, Row};

/// The row that a text names, by its name in one of the modes, or none. Names are in lower case.
pub fn row_named(text: &[u8]) -> Option<Row>
    ensures { result ≡ row_of text.now }
{
    first_named(&ROWS, text)
}

/// The row's name in a mode: in capability mode if `mode` is true.
pub fn mnemonic(row: Row, mode: bool) -> &'static str
    ensures { result.now ≡ mnemonic_of mode row }
{
    if mode {
        row.capability_name()
    } else {
        row.name()
    }
}

fn is_name(text: &[u8], row: Row) -> bool
    ensures { result ≡ is_named text.now row }
{
    text == row.name().as_bytes() || text == row.capability_name().as_bytes()
}

fn first_named(rows: &[Row], text: &[u8]) -> Option<Row>
    ensures { result ≡ find (is_named text.now) rows.now }
{
    rows.iter().copied().find(|row| is_name(text, *row))
}
