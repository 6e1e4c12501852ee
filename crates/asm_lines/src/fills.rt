//! The directives that place zeros, by a number.
ghost use Rattle.std.specs.Prelude.{◌≡◌};
ghost use Rattle.asm_lines.specs.Fills as spec;

use crate::parsed::Fill;
use crate::pattern::is_word;

// Of each its name and the greatest number that it takes.
macro_rules! fills {
    ($reading:ident of $word:ident) => {
        $reading! {
            $word;
            Align ".align" 12;
            Zero ".zero" 268_435_456;
        }
    };
}

macro_rules! named {
    ($word:ident; $($fill:ident $name:literal $most:literal;)*) => {{
        $(if is_word($word, $name) {
            return Some(Fill::$fill);
        })*
        None
    }};
}

macro_rules! most {
    ($value:ident; $($fill:ident $name:literal $most:literal;)*) => {
        match $value {
            $(Fill::$fill => $most,)*
        }
    };
}

/// The directive of a name, if it places zeros by a number.
pub(crate) fn fill_named(word: &[u8]) -> Option<Fill>
    ensures { result ≡ spec.fill_named word.now }
{
    fills!(named of word)
}

impl Fill {
    /// The greatest number that it takes.
    pub(crate) fn most(self) -> u64
        ensures { result ≡ (spec.row_of self).most }
    {
        fills!(most of self)
    }
}
