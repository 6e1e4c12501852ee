//! Mnemonics that aren't known.

use crate::faulty::{Faulty, shown};
use crate::near::mnemonic_near;
use crate::numbers::aligned;
use crate::proposals::{did_you_mean, rewritten, words};
use crate::shapes::{commented, local_use, misplaced};
use crate::table::{FAMILIES, PSEUDO_INSTRUCTIONS, UNKNOWN, family_of, row_of};
use asm_lines::{Class, before, is_name};
use std::alloc::{AllocError, Global};

/// The mnemonic that a row's lines begin with, where the operands aren't those that they take.
fn written_with(alloc: Global, faulty: Faulty<'_>) -> Result<Vec<u8>, AllocError> {
    match row_of(PSEUDO_INSTRUCTIONS, faulty.word) {
        Some(lines) => {
            let mnemonic = before(lines.as_bytes(), Class::Solid);
            hint_of!(alloc, "it is written with " Text(shown(mnemonic)))
        }
        None => Ok(Vec::new(alloc)),
    }
}

/// What is said of a word that stands alone and isn't known.
fn as_label(alloc: Global, faulty: Faulty<'_>) -> Result<Vec<u8>, AllocError> {
    if faulty.operands.is_empty() && is_name(faulty.word) {
        hint_of!(alloc, "a label has a colon after it: " Text(shown(faulty.word)) ":")
    } else {
        Ok(Vec::new(alloc))
    }
}

/// What is said of a line whose mnemonic isn't known.
pub(crate) fn unknown(alloc: Global, faulty: Faulty<'_>) -> Result<Vec<u8>, AllocError> {
    first_known! { alloc;
        words(alloc, commented(faulty));
        words(alloc, misplaced(faulty));
        words(alloc, local_use(faulty));
        rewritten(alloc, PSEUDO_INSTRUCTIONS, faulty);
        aligned(alloc, faulty);
        written_with(alloc, faulty);
        words(alloc, row_of(UNKNOWN, faulty.word));
        words(alloc, family_of(FAMILIES, faulty.word));
        did_you_mean(alloc, mnemonic_near(faulty.word));
        as_label(alloc, faulty);
    }
}
