//! Steps: what the hart's state is, what an event makes of it, and what the code that does it speaks of.
#![tactic(auto)]

mod effect;
mod ends;
mod event;
mod fetched;
mod run;

pub use effect::{
    CsrWrite, DeviceLoad, Effect, Enter, Link, SpecialWrite, Store, StoreCapability, Write,
};
pub use ends::Why;
pub use event::{Event, Out};
pub use fetched::Fetched;
pub use run::{Advance, At, Hop, Leads, Progress, Run};
