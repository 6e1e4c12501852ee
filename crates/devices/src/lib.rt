//! The devices: the timer, the console, and halt.
#![tactic(auto)]

mod console;
mod devices;
mod fault;
mod interrupts;
pub mod laws;
mod loads;
mod map;
mod sound;
mod stores;
mod timer;

pub use devices::{Devices, Effect};
pub use fault::DeviceFault;
pub use map::RECEIVE;
