//! Texts on bounds: what setting them gives, what a length alone needs, and what a capability's word means.
#![tactic(auto)]

ghost use Rattle.std.specs.Prelude.{◌≡◌, ◌+◌, ◌≤◌, if◌then◌else◌, length};

mod bounds;
mod length;
mod request;
mod window;
mod word;

use arrayvec::ArrayString;
pub use bounds::bounds_text;
pub use length::{length_text, whole_length};
pub use request::Request;
pub use word::{Decoded, Sealing, permission_letters, sealing_of, word_text};

/// A text: at most 13 lines of at most 80 bytes.
pub type Text = ArrayString<1040>;

/// One of two texts.
fn either<'a>(first: bool, yes: &'a str, no: &'a str) -> &'a str
    ensures text { result.now ≡ if first then yes.now else no.now }
    ensures within { length result.now ≤ length yes.now + length no.now }
{
    if first { yes } else { no }
}
