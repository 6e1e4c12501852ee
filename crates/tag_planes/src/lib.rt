//! The tags of granules as bits of words: 64 granules a word, the first granule's tag in the lowest bit of the first word.
#![tactic(auto)]

mod granule;
mod mask;
mod next;
mod range;
mod words;

pub use granule::{clear_tag, has_tag, put_tag};
pub use next::next_tag;
pub use range::clear_tags;
pub use words::first_word;
