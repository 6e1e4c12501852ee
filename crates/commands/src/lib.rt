//! What the commands of the program do, over any files and streams; all but `debug`.
#![tactic(auto)]

mod assembling;
mod auditing;
mod beginning;
mod bounding;
mod fault;
mod faulty_text;
mod files;
mod imaging;
mod listing;
mod loading;
mod overwriting;
mod programs;
mod proving;
mod reporting;
mod running;
mod telling;
mod watching;
mod writing;

pub use assembling::assemble_file;
pub use auditing::audit_file;
pub use bounding::{show_bounds, show_word};
pub use fault::ProgramFault;
pub use faulty_text::FaultyText;
pub use files::{Folder, read_text};
pub use imaging::image_file;
pub use listing::list_file;
pub use loading::{LoadedRun, load};
pub use overwriting::overwrites;
pub use programs::{LoadedProgram, load_program};
pub use proving::prove_file;
pub use running::{Ended, ProgramMachine, run_first, stop_at};
pub use telling::put_fault;
pub use watching::run_loaded;
pub use writing::Writing;
