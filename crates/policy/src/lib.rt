//! Policies: rules for the code in some ranges, and runs that are watched by them.
#![tactic(auto)]

mod about;
mod breach;
mod certificate;
mod cover;
mod entries;
mod fault;
mod guard;
mod in_force;
pub mod laws;
mod opened;
mod plain;
mod refused;
mod rule;
mod types;
mod watch;
mod watcher;

pub use about::{applies, fetched_at};
pub use breach::{breaks, first_breach};
pub use entries::entered_by;
pub use fault::PolicyFault;
pub use in_force::InForce;
pub use opened::{may_halt, may_seal, may_send, may_set_timer, may_use_system};
pub use reach::Range;
pub use refused::Refused;
pub use rule::{Ban, Rule};
pub use types::types_of;
pub use watch::{Watched, run_watched};
pub use watcher::Watcher;
