//! A machine that is run on a schedule.
#![tactic(auto)]

mod before;
mod ending;
mod notes;
mod object;
mod profile;
mod run;
mod stopping;
mod tally;
mod traced;
mod unhandled;

pub use before::{count_steps, lines_skipped, run_before, run_traced_before};
pub use ending::{ending_lines, verdict};
pub use object::{ending_object, stopped_objects};
pub use profile::profile_before;
pub use run::{Ran, run_counted, run_scheduled};
pub use stopping::{StopAt, find_stop, stopped_lines, stops_before};
pub use traced::{Form, TraceFault, run_traced};
