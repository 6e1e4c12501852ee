ghost use Rattle.std.specs.Prelude.{◌≡◌, true};
ghost use Rattle.isa_rows.specs.declared.kinds.Kind.TheVariants as kind;
ghost use Rattle.isa_rows.specs.Kind.{kind_of};
ghost use Rattle.isa_rows.specs.declared.rows.Row.TheVariants as row;
ghost use Rattle.cap_bounds.specs.CapValue.{is_tagged};
ghost use Rattle.cap_rights.specs.Rights.{IsInRightsOf};
ghost use Rattle.cap_insns.specs.CapabilityRows.{row_value};

use crate::derived::{outer, with_exact_bounds};
use crate::numbers::{
    alignment_mask, hardware_perms, integer, length, representable_length, truth,
};
use cap_bounds::CapRep;
use cap_rights::{
    OType, Perms, and_perms, equal_exact, seal, seal_entry, set_flags, subset, unseal,
};
use isa_rows::{Insn, Row};

/// What a row over capabilities gives (UCAM-CL-TR-987, CHERI-RISC-V instructions).
///
/// `cs1` and `cs2` are what the registers rs1 and rs2 hold, and `ddc` is the default data capability. A number is a null
/// capability with that address. A derivation that may not be made answers the fields that success would have given, without the
/// tag.
///
/// Of all these rows CUnseal alone can give a capability that is not within the rights of what rs1 holds.
#[inline(always)]
pub fn cap_op<C: CapRep>(insn: Insn, cs1: C, cs2: C, ddc: C) -> C
    requires { kind_of insn.row ≡ kind.Capability }
    ensures value { C.value result ≡ row_value insn.row insn (C.value cs1) (C.value cs2) (C.value ddc) }
    ensures within { (insn.row ≡ row.CUnseal → ⊥) → is_tagged (C.value result) ≡ true → IsInRightsOf (C.value result) (C.value cs1) }
{
    row_op(insn, cs1, cs2, ddc)
}

/// The same for `cap_op`, which says of rights what follows from the row's equation.
#[tactic(auto, unfolding(crate::specs::CapabilityRows::row_value, isa_rows::specs::Line::line_of))]
#[inline(always)]
fn row_op<C: CapRep>(insn: Insn, cs1: C, cs2: C, ddc: C) -> C
    requires { kind_of insn.row ≡ kind.Capability }
    ensures { C.value result ≡ row_value insn.row insn (C.value cs1) (C.value cs2) (C.value ddc) }
{
    let number = cs2.address();
    match insn.row {
        Row::CIncOffsetImm => cs1.set_address(cs1.address().wrapping_add(insn.imm)),
        Row::CSetBoundsImm => cs1.set_bounds(insn.imm).0,
        Row::CSetBounds => cs1.set_bounds(number).0,
        Row::CSetBoundsExact => with_exact_bounds(cs1, number),
        Row::CSeal => seal(cs1, cs2),
        Row::CUnseal => unseal(cs1, cs2),
        Row::CAndPerm => and_perms(cs1, Perms::from_hardware(number)),
        Row::CSetFlags => set_flags(cs1, number % 2 == 1),
        Row::CSetOffset => cs1.set_address(cs1.base().wrapping_add(number)),
        Row::CSetAddr => cs1.set_address(number),
        Row::CIncOffset => cs1.set_address(cs1.address().wrapping_add(number)),
        Row::CSub => integer(cs1.address().wrapping_sub(number)),
        Row::CTestSubset => truth(subset(outer(insn.rs1, cs1, ddc), cs2)),
        Row::CSetEqualExact => truth(equal_exact(cs1, cs2)),
        Row::CGetPerm => integer(hardware_perms(cs1)),
        Row::CGetType => integer(OType::of(cs1).signed_number()),
        Row::CGetBase => integer(cs1.base()),
        Row::CGetLen => integer(length(cs1)),
        Row::CGetTag => truth(cs1.tag()),
        Row::CGetSealed => truth(OType::of(cs1) != OType::UNSEALED),
        Row::CGetOffset => integer(cs1.address().wrapping_sub(cs1.base())),
        Row::CGetFlags => truth(cs1.flag()),
        Row::Crrl => integer(representable_length(cs1.address())),
        Row::Cram => integer(alignment_mask(cs1.address())),
        Row::CMove => cs1,
        Row::CClearTag => cs1.clear_tag(),
        Row::CGetAddr => integer(cs1.address()),
        Row::CSealEntry => seal_entry(cs1),
        _ => unreachable!(),
    }
}
