//! Images: what a machine begins with, their files, and the devices that files come from and go to.
#![tactic(auto)]

mod cap_entry;
mod devices;
mod fault;
mod from_read;
mod image;
pub mod laws;
mod parts;
mod reading;
mod section;
mod to_write;
mod writing;

pub use cap_entry::{CapEntry, is_exact_range};
pub use devices::{DeviceFailed, Sink, Source, write_all};
pub use fault::ImageFault;
pub use from_read::FromRead;
pub use image::{Image, is_good_header};
pub use reading::read;
pub use section::Section;
pub use to_write::ToWrite;
pub use writing::write;
