//! Tables of symbols: the names of addresses and the lines of sources, as lines of a text, and what is looked up in them.
#![tactic(auto)]

mod labels;
mod lines;
mod sources;
mod symbol;
mod symbols;
mod table;

pub use labels::{Label, Labelled, Source, labelled};
pub use lines::{split_line, table_text};
pub use symbol::{Symbol, is_label};
pub use symbols::{Symbols, read_symbols};
pub use table::{Names, SymbolsFault};
