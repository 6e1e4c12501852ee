//! What a capability allows: its permissions and its type, and what may be derived from it.
#![tactic(auto)]

mod compared;
mod fields;
pub mod laws;
mod opens;
mod otype;
mod permission;
mod perms;
mod restricted;
mod rights;
mod seals;
mod unsealed;

pub use compared::{equal_exact, subset};
pub use fields::{address_in_bounds, is_sealed};
pub use opens::{allows, opens_store, opens_system, opens_type};
pub use otype::OType;
pub use permission::{Permission, permits};
pub use perms::Perms;
pub use restricted::{and_perms, set_flags};
pub use rights::within_rights;
pub use seals::{seal, seal_entry, unseal};
pub use unsealed::opened;
