//! What stands after an address: the label at it or below it, and the line of a source that places its instruction.
ghost use Rattle.std.specs.Prelude.{◌≡◌, ◌+◌, ◌<◌, ◌≤◌, length, true};
ghost use Rattle.std.specs.Option.{option_copied};
ghost use Rattle.arrayvec.specs.ArrayString.{array_string_len};
ghost use Rattle.symbols.specs.Labels.{label_of, labelled, table_of};
ghost use Rattle.symbols.specs.Sources.{source_of};
ghost use Rattle.symbols.specs.Symbols.{is_label};

use crate::symbols::Symbols;
use arrayvec::ArrayString;
use texts::Piece::{Address, Decimal, Text};
use texts::text;

/// A label and the distance from it, at most 278 bytes.
pub type Label = ArrayString<280>;

/// An address and its label, at most 294 bytes.
pub type Labelled = ArrayString<294>;

/// A label as a text.
fn name_text(name: &[u8]) -> &str
    requires { is_label name.now ≡ true }
    ensures { result.now ≡ name.now }
{
    match str::from_utf8(name) {
        Ok(text) => text,
        Err(_) => unreachable!(),
    }
}

impl Symbols {
    /// What stands after an address: ` <name>` or ` <name+4>`, by the symbol at it or nearest below it, of several at one address the
    /// first; nothing where none is fewer than 4096 bytes below it. At most 278 bytes; it takes no memory.
    #[tactic(auto, unfolding(crate::specs::Labels::label_of, crate::specs::Labels::distance_text))]
    pub fn label_of(&self, address: u64) -> Label
        ensures text { result.bytes ≡ label_of self.now address }
        ensures within { array_string_len result ≤ 278 }
    {
        let Some(symbol) = self.nearest(address) else {
            return Label::new();
        };
        let name = Text(name_text(symbol.name()));
        let distance = address.saturating_sub(symbol.address());
        if distance >= 4096 {
            Label::new()
        } else if distance == 0 {
            text(&[Text(" <"), name, Text(">")])
        } else {
            text(&[Text(" <"), name, Text("+"), Decimal(distance), Text(">")])
        }
    }
}

/// A line of a source, at most 241 bytes.
pub type Source = ArrayString<256>;

impl Symbols {
    /// What stands after an address and its label where the line is known that places its instruction: ` mem.s:41: csd t0, 24(cs4)`. At
    /// most 241 bytes; it takes no memory.
    #[tactic(auto, unfolding(crate::specs::Sources::source_of))]
    pub fn source_of(&self, address: u64) -> Source
        ensures text { result.bytes ≡ source_of self.now address }
        ensures within { array_string_len result ≤ 241 }
    {
        match self.source_at(address) {
            Some(place) => text(&[Text(" "), Text(place)]),
            None => Source::new(),
        }
    }
}

/// An address in 16 digits, and its label where there is a table; at most 294 bytes. It takes no memory.
#[tactic(auto, unfolding(crate::specs::Labels::labelled, crate::specs::Labels::label_of))]
pub fn labelled(table: Option<&Symbols>, address: u64) -> Labelled
    ensures text { result.bytes ≡ labelled (table_of (option_copied table.entry)) address }
    ensures within { array_string_len result ≤ 294 }
{
    match table {
        Some(symbols) => text(&[Address(address), Text(symbols.label_of(address).as_str())]),
        None => text(&[Address(address)]),
    }
}
