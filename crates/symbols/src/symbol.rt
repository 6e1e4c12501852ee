//! A name and its address.
ghost use Rattle.std.specs.Prelude.{◌≡◌, ◌<◌, ◌≤◌, length, IsTrue};
ghost use Rattle.symbols.specs.Symbols.{is_label};

use asm_lines::{is_dot, is_name};
use std::marker::Model;

/// A name and the address that it stands for.
#[derive(Drop, Debug)]
pub struct Symbol {
    pub(crate) address: u64,
    pub(crate) name: Vec<u8>,
    ghost label: { IsTrue (is_label name.items) },
}

impl Model for Symbol {
    ghost use Rattle.std.specs.Prelude.{false};
    ghost use Rattle.symbols.specs.Symbols as spec;

    ghost Value = { spec.Symbol };

    ghost view = { λ s. record { address = s.address; name = s.name.items; is_line = false } };
}

impl Symbol {
    /// The address.
    pub fn address(&self) -> u64
        ensures { result ≡ self.now.address }
    {
        self.address
    }

    /// The name, a label of at most 254 bytes.
    #[tactic(auto, unfolding(crate::specs::Symbols::is_label))]
    pub fn name(&self) -> &[u8]
        ensures value { result.now ≡ self.now.name }
        ensures label { IsTrue (is_label result.now) }
        ensures bound { length result.now ≤ 254 }
    {
        &self.name
    }
}

/// Whether a line of assembly can define a name: a letter, `_` or `.`, and then letters, digits, `_` and `.`, but not `.` alone, and
/// at most 254 bytes, so that the line has room for the colon.
#[tactic(auto, unfolding(crate::specs::Symbols::is_label))]
pub fn is_label(name: &[u8]) -> bool
    ensures { result ≡ is_label name.now }
{
    is_name(name) && !is_dot(name) && name.len() <= 254
}
