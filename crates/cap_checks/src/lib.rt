//! The checks that stand before an access or a jump: the first fault of an ordered list. Each check stands once, as the text of its
//! conditions; what lists them and what reports the first that is false are made of it.
#![tactic(auto)]

mod access;
mod accesses;
mod conditions;
mod fetches;
mod jumps;
pub mod laws;
mod question;

pub use access::{Access, Stored};
pub use accesses::{access_conditions, check_access};
pub use fetches::{check_fetch, fetch_conditions};
pub use jumps::{
    check_invoke, check_jump, check_target, invoke_conditions, jump_conditions, jump_target,
    target_conditions,
};
pub use question::{Condition, Question};
