//! Schedules, and machines that are walked over them: when the steps of a run end, when its bytes and ticks come, and who watches.
#![tactic(auto)]

mod both;
mod output;
mod pace;
mod position;
mod progress;
mod schedule;
mod seen;
mod walking;
mod watch;

pub use both::{Both, Either};
pub use output::Output;
pub use pace::{How, Pace, Speed};
pub use position::Position;
pub use progress::{Count, Nobody, Progress, STRIDE, walk_told};
pub use schedule::Schedule;
pub use seen::Seen;
pub use walking::{Walking, walk, walk_whole};
pub use watch::Watch;
