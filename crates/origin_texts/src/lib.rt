//! Where a value came from, where a tag was lost, and who called whom, as texts over a session's past.
#![tactic(auto)]

mod call_trace;
mod calls;
mod chain;
mod conditions;
mod copied;
mod link;
mod links;
mod log;
mod lost;
mod origin;
mod place;
mod states;
mod stretch;
mod told;

pub use call_trace::calls_before;
pub use calls::put_calls;
pub use lost::{LossStep, lost_steps, put_lost};
pub use origin::put_origin;
