//! The machine: a hart that meets events.
#![tactic(auto)]

mod advance;
mod end;
mod fault;
pub mod laws;
mod machine;
mod setting;
mod stretch;
mod worlds;

pub use end::End;
pub use fault::MachineFault;
pub use hart::{Hart, Planned};
pub use machine::{Machine, emit};
pub use steps::{Advance, Event, Out, Why};
pub use stretch::Stretch;
pub use worlds::{Both, events_make_one_stretch, run_both};
