//! Policies as texts: lines that define ranges by name, and lines that are rules about the code in ranges.
//!
//! A line is a definition, `NAME = RANGES`, a rule, `when pc in RANGES: PART, PART ..`, names where any code may be,
//! `any code in RANGES`, or says nothing; `#` begins a comment.
//!
//! - RANGES are words, each a name that an earlier line defines, a device register's name, `FROM..TO` or `FROM..+LENGTH`. FROM and TO,
//!   which is not in the range, are numbers or labels.
//! - A PART is `store`, `load`, `execute`, `keep` or `enter` with `within RANGES` or `no`; `transmit`, `halt`, `timer`, `system` or `seal`
//!   with `yes` or `no`; or `types` with object types or `none`. A part that a rule has not forbids nothing. A store to transmit, halt or
//!   mtimecmp is forbidden by `transmit`, `halt` and `timer` alone.
#![tactic(auto)]

mod cut;
mod fault;
pub mod laws;
mod line;
mod part;
mod parts;
mod ranges;
mod reading;
mod rule_text;

pub use fault::{PolicyCode, PolicyTextFault};
pub use reading::{Policy, read_policy};
pub use rule_text::line_text;
