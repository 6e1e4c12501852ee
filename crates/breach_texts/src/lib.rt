//! What breaks a rule, as a text and as an object.
#![tactic(auto)]

mod breach;
mod object;
mod stopped;

pub use breach::{RuleLine, ban_word, put_breach};
pub use object::{put_breach_fields, put_broken_fields};
pub use stopped::{refused_lines, refused_object};
