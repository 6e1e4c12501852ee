//! What is wrong with the lines after the first faulty one.
ghost use Rattle.std.specs.Prelude.{◌≡◌, ◌+◌, ◌-◌, ◌<◌, ◌≤◌, ◌^◌, ◌∷◌, ◌++◌, List, length, drop, take, IfOk, IfSome, OnOk};
ghost use Rattle.assembler.specs.declared.fault.AsmFault.{AsmFault as Fault};
ghost use Rattle.assembler.specs.Further.{code_of, faults_after, own_fault};
ghost use Rattle.assembler.specs.Left.{lines_left};
ghost use Rattle.assembler.specs.Places.{lines_of};
ghost use Rattle.assembler.specs.Told.{IsUpTo};

use crate::fault::{AsmCode, AsmFault};
use crate::lines::{after_line, next_line};
use asm_lines::LineFault;
use std::alloc::{AllocError, Global};

/// The own faults of the lines after a text's first faulty one.
#[derive(Drop, Debug)]
pub struct FurtherFaults {
    /// The first ones, in order of their lines.
    pub shown: Vec<AsmFault>,
    /// How many more there are.
    pub left: u64,
}

impl FurtherFaults {
    /// Takes the next fault: keeps it, or counts it where `most` are kept.
    fn take(&mut self, fault: AsmFault, most: usize) -> Result<(), AllocError>
        requires { self.old.left + 1 < 2 ^ 64 }
        ensures told { OnOk result ((all : List Fault) (later : List Fault) → IsUpTo most all (fault ∷ later) self.old
            → IsUpTo most all later self.new) }
        ensures left { OnOk result (self.new.left ≤ self.old.left + 1) }
    {
        if self.shown.len() < most {
            self.shown.push(fault)?;
        } else {
            self.left += 1;
        }
        Ok(())
    }

    /// Takes what is wrong with the line of a number, if something is.
    fn pass(&mut self, number: u64, fault: Option<LineFault>, most: usize) -> Result<(), AllocError>
        requires { self.old.left + 1 < 2 ^ 64 }
        ensures told { OnOk result ((all : List Fault) (later : List Fault) → IsUpTo most all (own_fault number fault ++ later) self.old
            → IsUpTo most all later self.new) }
        ensures left { OnOk result (self.new.left ≤ self.old.left + 1) }
    {
        match fault {
            None => Ok(()),
            Some(fault) => {
                let code = code_of(fault);
                self.take(AsmFault { line: number, code }, most)
            }
        }
    }
}

/// What is wrong with a line by itself, as the fault of a text.
fn code_of(fault: LineFault) -> AsmCode
    ensures { result ≡ code_of fault }
{
    match fault {
        LineFault::A1 => AsmCode::A1,
        LineFault::A2 => AsmCode::A2,
        LineFault::A3 => AsmCode::A3,
        LineFault::A8 => AsmCode::A8,
        LineFault::A9 => AsmCode::A9,
    }
}

/// What stands after so many lines, if there is a line more.
fn after_lines(text: &[u8], count: u64) -> Option<&[u8]>
    ensures lines { lines_left result ≡ drop count (lines_of text.now) }
    ensures shorter { IfSome result (λ rest. count + length rest.now ≤ length text.now) }
{
    let mut rest = text;
    for _ in 0..count {
        rest = after_line(rest)?;
    }
    Some(rest)
}

/// The further faults of a text whose first faulty line is `first`: the own faults of the lines after it (A1, A2, A3, A8, A9), in order.
/// The first `most` are shown, and the others counted.
///
/// What is wrong with a line only by what stands in others isn't among them: a label or a name, a value, a target, a place, a directive
/// that is repeated or late, bounds of a capability.
///
/// # Errors
///
/// Out of memory.
#[tactic(auto, unfolding(crate::specs::Further::faults_after))]
pub fn further_faults(
    alloc: Global,
    text: &[u8],
    first: u64,
    most: usize,
) -> Result<FurtherFaults, AllocError>
    ensures shown { IfOk result (λ further. further.shown.items ≡ take most (faults_after first text.now)) }
    ensures left { IfOk result (λ further. further.left ≡ length (faults_after first text.now) - most) }
{
    let mut further = FurtherFaults {
        shown: Vec::new(alloc),
        left: 0,
    };
    let mut number = first;
    let mut rest = after_lines(text, first);
    while let Some(left) = rest {
        let (line, after) = next_line(left);
        number += 1;
        further.pass(number, line.fault, most)?;
        rest = after;
    }
    Ok(further)
}
