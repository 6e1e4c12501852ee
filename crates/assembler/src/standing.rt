//! Where a text stands at its first faulty line.
ghost use Rattle.std.specs.Prelude.{◌≡◌, None};
ghost use Rattle.assembler.specs.declared.fault.AsmCode.TheVariants.{A10};

use crate::builder::Builder;
use crate::fault::AsmFault;
use crate::labels::Labels;
use std::alloc::AllocError;
use std::marker::Model;

/// What the lines before a text's first faulty one set and place, and the labels of the whole text.
#[derive(Drop)]
pub struct Standing {
    pub(crate) labels: Labels,
    pub(crate) builder: Builder,
}

impl Model for Standing {
    ghost use Rattle.assembler.specs.Standing as spec;

    ghost Value = { spec.Standing };

    ghost view = { λ s. record { symbols = s.labels; assembled = s.builder } };
}

/// The fault of a text, and where the text stands at it; of A10 the fault alone.
#[derive(Drop)]
pub struct Stopped {
    pub fault: AsmFault,
    pub standing: Option<Standing>,
}

impl From<AllocError> for Stopped {
    ghost from_gives = { λ _ s. (s.fault.code ≡ A10) × (s.fault.line ≡ 0) × (s.standing ≡ None) };

    fn from(error: AllocError) -> Stopped {
        Stopped {
            fault: AsmFault::from(error),
            standing: None,
        }
    }
}
