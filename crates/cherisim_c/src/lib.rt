//! The machine for C, by a handle.
#![tactic(auto)]

mod answers;
mod asking;
mod audits;
mod bytes;
mod events;
mod handle;
mod holding;
mod imaging;
mod life;
mod links;
mod machine_registers;
mod memory;
mod pasts;
mod peripherals;
mod places;
mod policed;
mod policies;
mod proving;
mod reaching;
mod recalled;
mod refusal;
mod running;
mod status;
mod stepping;
mod tellings;
mod through;
mod types;

pub use handle::Handle;
pub use types::{
    Answer, Breach, Console, Door, Halted, Linked, Member, Noted, PlaceAsked, Question, RunAsked,
    RunDone, Sent, Stepped, Timer, Timetable,
};
