//! One line of an assembly text: its label, its statement, and the faults that the line alone decides.
#![tactic(auto)]

mod class;
mod comment;
mod data;
mod fault;
mod filling;
mod fills;
mod forms;
mod line;
mod number;
mod operand;
mod parsed;
mod parts;
mod pattern;
mod quoted;
mod ranges;
mod statement;
mod text;
mod values;
mod words;

pub use class::{Class, digit_value, run_length};
pub use fault::LineFault;
pub use filling::first_rest;
pub use forms::{Form, Operand, Written, form_of, slot_word};
pub use line::parse_line;
pub use number::expression;
pub use operand::{natural, wrapped};
pub use parsed::{Data, Directive, Expression, Fill, Instruction, Parsed, Setting, Statement};
pub use parts::{Part, Parts, parts_of};
pub use pattern::is_word;
pub use ranges::Range;
pub use text::{after, before, is_dot, is_name, split_piece, trimmed_end, trimmed_start};
pub use values::{is_in_size, is_natural, operand_at, operand_count};
pub use words::{number_between, split_word};
