//! The rows of the instruction table, their operands, and which operands a row can have.
#![tactic(auto)]

mod formats;
mod forms;
mod kinds;
pub mod laws;
mod operands;
mod rows;
mod slots;
mod table;
mod transfers;

pub use formats::Format;
pub use kinds::Kind;
pub use operands::{Insn, fits};
pub use rows::Row;
pub use slots::{Naming, Slot};
pub use table::ROWS;
pub use transfers::{Through, Transfer, Width};
