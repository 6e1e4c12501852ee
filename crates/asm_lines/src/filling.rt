//! Operands for all slots of an instruction, and the first fault that is told of them.
ghost use Rattle.std.specs.Prelude.{◌≡◌, ◌≤◌, ◌+◌, length};
ghost use Rattle.std.specs.Option.{option_map_or};
ghost use Rattle.asm_lines.specs.Text.{pieces_of, pieces_left};
ghost use Rattle.asm_lines.specs.Operand.{told_fault, fault_of, draft_after, filled_slot, filled_draft, filled_fault};
ghost use Rattle.asm_lines.specs.Bounded.{HasTargetOffset};
ghost use Rattle.asm_lines.specs.Seen.{seen_draft, seen_rest};

use crate::fault::LineFault;
use crate::operand::{Draft, filled_slot};
use crate::text::split_piece;
use asm_names::Slot;

/// Of two faults A2, and else the first.
pub(crate) fn told_fault(fault: Option<LineFault>, later: Option<LineFault>) -> Option<LineFault>
    ensures { result ≡ told_fault fault later }
{
    match (fault, later) {
        (None, _) => later,
        (Some(_), Some(LineFault::A2)) => later,
        (Some(_), _) => fault,
    }
}

/// The operands between commas, to be split off one after another: none in no text.
pub fn first_rest(operands: &[u8]) -> Option<&[u8]>
    ensures value { pieces_left (seen_rest result) ≡ pieces_of operands.now }
    ensures bound { option_map_or (λ t. length t.now + 1) result 0 ≤ length operands.now + 1 }
{
    if operands.is_empty() {
        None
    } else {
        Some(operands)
    }
}

/// The instruction after one operand, and the fault that is told from there on.
fn after_operand<'a>(
    slot: Slot,
    piece: &'a [u8],
    draft: Draft<'a>,
    fault: Option<LineFault>,
) -> (Draft<'a>, Option<LineFault>)
    requires { HasTargetOffset draft.target }
    ensures offset { HasTargetOffset result.0.target }
    ensures draft { seen_draft result.0 ≡ draft_after (seen_draft draft.entry) (filled_slot slot piece.now (seen_draft draft.entry)) }
    ensures fault { result.1 ≡ told_fault fault (fault_of (filled_slot slot piece.now (seen_draft draft.entry))) }
{
    match filled_slot(slot, piece, draft) {
        Ok(next) => (next, fault),
        Err(later) => (draft, told_fault(fault, Some(later))),
    }
}

/// The instruction with an operand for each slot, and what is wrong with the operands; other than one operand for each slot is A2.
pub(crate) fn filled<'a>(
    slots: &[Slot],
    operands: &'a [u8],
    draft: Draft<'a>,
) -> (Draft<'a>, Option<LineFault>)
    requires { HasTargetOffset draft.target }
    ensures offset { HasTargetOffset result.0.target }
    ensures draft { seen_draft result.0 ≡ filled_draft slots.now (pieces_of operands.now) (seen_draft draft.entry) }
    ensures fault { result.1 ≡ filled_fault slots.now (pieces_of operands.now) (seen_draft draft.entry) }
{
    let mut rest = first_rest(operands);
    let mut draft = draft;
    let mut fault = None;
    for slot in slots {
        let Some(text) = rest else {
            return (draft, told_fault(fault, Some(LineFault::A2)));
        };
        let (piece, left) = split_piece(text);
        (draft, fault) = after_operand(*slot, piece, draft, fault);
        rest = left;
    }
    match rest {
        Some(_) => (draft, told_fault(fault, Some(LineFault::A2))),
        None => (draft, fault),
    }
}
