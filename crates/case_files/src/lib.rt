//! Tries files of cases that neither the C libraries nor the program `cherisim` show: both forms of capabilities beside each other,
//! calls that nobody shows, and devices that fail. A case is a line `inputs => answer`. Of both forms the answer is the libraries',
//! which tools/try_cases.py compares with the line's. With them stand what a case is read and told by (its words, bytes, texts in
//! quotes), and the devices: each gives or takes few bytes a call, and one of its calls fails, after which it works again; and a sink
//! that takes no memory.
#![tactic(auto)]

mod agreements;
mod alone;
mod failures;
mod fault;
mod files;
mod forms;
mod hexadecimal;
mod over_memory;
mod over_std;
mod paper;
mod quoted;
mod words;

pub use fault::CaseError;
pub use files::try_files;
pub use hexadecimal::{bytes, bytes_text};
pub use over_memory::{Narrow, Slow};
pub use over_std::{Failure, Reader, Writer};
pub use paper::Paper;
pub use quoted::{put_quoted, unescaped, unquoted};
pub use words::Words;
