//! Whether a step of the kernel's code is followed, where some registers are unknown.
ghost use Rattle.std.specs.Prelude.{◌≡◌, ◌<◌, false, true, IfSome, IsFalse, IsTrue};
ghost use Rattle.isa_rows.specs.Kind.{kind_of};
ghost use Rattle.isa_rows.specs.declared.kinds.Kind.TheVariants as kind;
ghost use Rattle.isa_rows.specs.declared.rows.Row.TheVariants.{CTestSubset, CUnseal};
ghost use Rattle.reached.specs.Links.{values};
ghost use Rattle.steps.specs.Applying.{IsPlanned, meant};
ghost use Rattle.steps.specs.Looks.{HasRegisters, in_capability_mode};
ghost use Rattle.steps.specs.Accesses.{through_rs1 as spec_through};
ghost use Rattle.every_run.specs.Handled.{IsKept, LooksAtExact, IsAmong, GivesAmong, IsDone, IsDeviceStore, IsFollowed};
ghost use Rattle.every_run.specs.Handled.{unknown_in};

use crate::kept::is_kept_data;
use crate::marks::Marks;
use crate::step::access_place;
use cap_bounds::CapRep;
use hart::{Hart, through_rs1};
use isa_rows::{Insn, Kind, Row};
use reach::Range;
use reached::Member;
use steps::Effect;

/// Whether an access is through rs1, and not through DDC.
fn is_through_rs1<C: CapRep>(hart: &Hart<C>, insn: Insn) -> bool
    ensures { result ≡ spec_through insn.row (in_capability_mode hart.now) }
{
    through_rs1(insn.row, hart.scrs().pcc().flag())
}

/// Whether a row is CTestSubset, which may look at DDC.
fn tests_subset(row: Row) -> bool
    ensures { IsFalse result → row ≡ CTestSubset → ⊥ }
{
    matches!(row, Row::CTestSubset)
}

/// Whether a row is CUnseal.
fn unseals(row: Row) -> bool
    ensures { IsFalse result → row ≡ CUnseal → ⊥ }
{
    matches!(row, Row::CUnseal)
}

/// Whether an instruction whose registers are exact looks at nothing that is unknown: a load of data counts as one of 8 bytes.
fn looks_at_exact<C: CapRep>(
    hart: &Hart<C>,
    members: &[Member<C>],
    any: &[Range],
    insn: Insn,
) -> bool
    requires { HasRegisters insn }
    ensures { IsTrue result → LooksAtExact (IsKept (values C.value members.now) any.now) (kind_of insn.row) insn hart.now }
{
    match insn.row.kind() {
        Kind::Csr | Kind::SpecialRw | Kind::Mret => false,
        Kind::Capability => !tests_subset(insn.row),
        Kind::Load => {
            is_through_rs1(hart, insn)
                && is_kept_data(hart, members, any, access_place(hart, insn), 8)
        }
        Kind::LoadCapability => {
            is_through_rs1(hart, insn)
                && is_kept_data(hart, members, any, access_place(hart, insn), 16)
        }
        Kind::Store => is_through_rs1(hart, insn),
        Kind::StoreCapability => is_through_rs1(hart, insn),
        _ => true,
    }
}

/// Whether a register is unknown, or holds no capability.
fn is_among<C: CapRep>(hart: &Hart<C>, marks: Marks, n: u8) -> bool
    requires { n < 32 }
    ensures { IsTrue result → IsAmong marks hart.now n }
{
    marks.is_unknown(n) || !hart.reg(n).tag()
}

/// Whether each of an instruction's registers is.
fn are_among<C: CapRep>(hart: &Hart<C>, marks: Marks, insn: Insn) -> bool
    requires { HasRegisters insn }
    ensures one { IsTrue result → IsAmong marks hart.now insn.rs1 }
    ensures two { IsTrue result → IsAmong marks hart.now insn.rs2 }
{
    is_among(hart, marks, insn.rs1) && is_among(hart, marks, insn.rs2)
}

/// Whether an instruction writes a register with a number or with something of the set, whatever its registers hold.
fn gives_among<C: CapRep>(hart: &Hart<C>, marks: Marks, insn: Insn) -> bool
    requires { HasRegisters insn }
    ensures { IsTrue result → GivesAmong (kind_of insn.row) insn marks hart.now }
{
    match insn.row.kind() {
        Kind::Integer | Kind::MulDiv => true,
        Kind::Capability => !unseals(insn.row) && are_among(hart, marks, insn),
        _ => false,
    }
}

/// Whether an effect is no trap.
pub(crate) fn is_done<C: CapRep>(effect: &Effect<C>) -> bool
    ensures { IsTrue result → IsDone (meant C.value effect.now) }
{
    !matches!(effect, Effect::Trap(_))
}

/// Whether an effect is a store into a device register.
fn is_device_store<C: CapRep>(effect: &Effect<C>) -> bool
    ensures { IsTrue result → IsDeviceStore (meant C.value effect.now) }
{
    matches!(effect, Effect::DeviceStore(_))
}

/// Whether an instruction returns from a trap.
pub(crate) fn is_return<C: CapRep>(insn: Insn, effect: &Effect<C>) -> bool
    ensures row { IsTrue result → kind_of insn.row ≡ kind.Mret }
    ensures done { IsTrue result → IsDone (meant C.value effect.now) }
{
    matches!(insn.row.kind(), Kind::Mret) && is_done(effect)
}

/// Whether a store through an exact register goes into a device register.
fn stores_exactly<C: CapRep>(hart: &Hart<C>, marks: Marks, insn: Insn, effect: &Effect<C>) -> bool
    requires { HasRegisters insn }
    ensures exact { IsTrue result → unknown_in marks insn.rs1 ≡ false }
    ensures through { IsTrue result → spec_through insn.row (in_capability_mode hart.now) ≡ true }
    ensures device { IsTrue result → IsDeviceStore (meant C.value effect.now) }
{
    !marks.is_unknown(insn.rs1) && is_through_rs1(hart, insn) && is_device_store(effect)
}

/// The marks after a step that looks at nothing that is unknown, if it is followed.
fn followed_exact<C: CapRep>(
    hart: &Hart<C>,
    members: &[Member<C>],
    any: &[Range],
    marks: Marks,
    insn: Insn,
    effect: &Effect<C>,
) -> Option<Marks>
    requires registers { HasRegisters insn }
    requires planned { IsPlanned C.value effect.now hart.now }
    ensures { IfSome result (λ later. IsFollowed (IsKept (values C.value members.now) any.now) hart.now insn marks later) }
{
    if !marks.are_exact(insn) {
        return None;
    }
    if !looks_at_exact(hart, members, any, insn) {
        return None;
    }
    marks.after(hart, effect)
}

/// The marks after a step that moves a special register, or stores into a device register, if it is followed.
fn followed_special<C: CapRep>(
    hart: &Hart<C>,
    members: &[Member<C>],
    any: &[Range],
    marks: Marks,
    insn: Insn,
    effect: &Effect<C>,
) -> Option<Marks>
    requires registers { HasRegisters insn }
    requires planned { IsPlanned C.value effect.now hart.now }
    ensures { IfSome result (λ later. IsFollowed (IsKept (values C.value members.now) any.now) hart.now insn marks later) }
{
    match insn.row.kind() {
        Kind::SpecialRw if is_done(effect) => marks.after_special(insn),
        Kind::Store if stores_exactly(hart, marks, insn, effect) => Some(marks),
        _ => None,
    }
}

/// The marks after a step that was planned, if it is followed.
pub(crate) fn followed<C: CapRep>(
    hart: &Hart<C>,
    members: &[Member<C>],
    any: &[Range],
    marks: Marks,
    insn: Insn,
    effect: &Effect<C>,
) -> Option<Marks>
    requires registers { HasRegisters insn }
    requires planned { IsPlanned C.value effect.now hart.now }
    ensures { IfSome result (λ later. IsFollowed (IsKept (values C.value members.now) any.now) hart.now insn marks later) }
{
    if let Some(later) = followed_exact(hart, members, any, marks, insn, effect) {
        return Some(later);
    }
    if gives_among(hart, marks, insn) {
        return Some(marks.marked(insn.rd, true));
    }
    followed_special(hart, members, any, marks, insn, effect)
}
