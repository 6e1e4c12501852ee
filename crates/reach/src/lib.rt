//! What the code that runs can reach: the capabilities that it can come to hold, and what they open.
#![tactic(auto)]

mod device_answers;
mod first;
pub mod laws;
mod may;
mod question;
mod range;
mod reach;
mod right;
mod sealed;
mod spans;

pub use device_answers::{CONTROL, HALT, STATUS, TIMER, TIMER_COMPARE, TRANSMIT};
pub use may::{Horizon, May};
pub use question::{has_granule, stores_locals};
pub use range::Range;
pub use reach::Reach;
pub use right::Right;
pub use spans::ranges;
