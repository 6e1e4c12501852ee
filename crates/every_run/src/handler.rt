//! The code of a kernel that any code enters by traps: it is done step by step, and what any code may have left is unknown in it.
ghost use Rattle.std.specs.Prelude.{◌≡◌, ◌<◌, ℕ, false, Contains, IfOk, IsTrue, OnOk};
ghost use Rattle.cap_bounds.specs.CapValue.{value_address};
ghost use Rattle.policy.specs.Terms.{terms_of};
ghost use Rattle.reached.specs.Links.{values};
ghost use Rattle.registers.specs.Registers.{register};
ghost use Rattle.special_regs.specs.Traps.{target as target_of};
ghost use Rattle.steps.specs.State.{State, pc_of};
ghost use Rattle.every_run.specs.Handled.{BeginsAt, HandlesTraps, IsDirect, IsHandled, IsHandledAfter, IsKept, IsOfSet, LeadsOn};
ghost use Rattle.every_run.specs.Handled.{ReturnsToSet, entry_marks, unknown_in};
ghost use Rattle.every_run.specs.Known.{IsOutside};
ghost use Rattle.every_run.specs.Stands.{AreKnown};

use crate::following::{followed, is_return};
use crate::kept::are_kept;
use crate::marks::Marks;
use crate::members::is_member;
use crate::ranges::holds;
use crate::step::{check_rules, pc_of};
use crate::verdict::Unshown;
use base::{csr, scr};
use cap_bounds::CapRep;
use cap_checks::check_fetch;
use cap_rights::equal_exact;
use hart::Hart;
use policy::{Rule, fetched_at};
use reach::Range;
use reached::{Member, Place};
use special_regs::target;
use steps::Event;

/// Where MScratchC stands among the roots, and MEPCC.
const MSCRATCHC_PLACE: usize = 36;

const MEPCC_PLACE: usize = 37;

/// Whether a trap enters the image's own code: MTCC leads to a word in RAM that isn't any code.
pub(crate) fn enters_own_code<C: CapRep>(hart: &Hart<C>, any: &[Range]) -> bool
    ensures { IsTrue result → IsOutside any.now (value_address (target_of hart.now.scrs.mtcc)) }
{
    let entry = target(hart.scrs().mtcc());
    let address = entry.address();
    check_fetch(entry).is_ok() && hart.memory().is_in_ram(address, 4) && !holds(any, address)
}

/// Puts a hart where every trap enters, with interrupts off. That is one place where MTCC's address is a multiple of 4.
fn enter<C: CapRep>(hart: &mut Hart<C>) -> Result<(), Unshown>
    ensures direct { OnOk result (IsDirect hart.old) }
    ensures begins { OnOk result (BeginsAt hart.old hart.new) }
{
    let entry = hart.scrs().mtcc();
    if entry.address() % 4 != 0 {
        return Err(Unshown::Unfollowed {
            pc: entry.address(),
        });
    }
    hart.set_scr(scr::PCC, target(entry));
    hart.set_csr(csr::MSTATUS, 0);
    Ok(())
}

/// That interrupts are off, and no code may have changed the word at PCC.
fn check_word<C: CapRep>(
    hart: &Hart<C>,
    members: &[Member<C>],
    any: &[Range],
) -> Result<(), Unshown>
    ensures off { OnOk result (hart.now.csrs.mstatus_mie ≡ false) }
    ensures known { OnOk result (AreKnown (IsKept (values C.value members.now) any.now) (pc_of hart.now) 4) }
{
    let pc = pc_of(hart);
    if hart.csrs().mstatus_mie {
        return Err(Unshown::Interrupts { pc });
    }
    if !are_kept(members, any, pc, 4) {
        return Err(Unshown::UnknownCode { address: pc });
    }
    Ok(())
}

/// Whether any code may be given a value: one that is unknown is of its set, or has no tag, and so is one that is a member.
fn is_of_set<C: CapRep>(members: &[Member<C>], unknown: bool, cap: C) -> bool
    ensures { IsTrue result → IsOfSet (Contains (values C.value members.now)) unknown (C.value cap) }
{
    unknown || !cap.tag() || is_member(members, cap)
}

/// That the return from a trap leaves any code nothing in the registers but what is of its set.
fn check_registers<C: CapRep>(
    hart: &Hart<C>,
    members: &[Member<C>],
    marks: Marks,
) -> Result<(), Unshown>
    ensures { OnOk result ((n : ℕ) → n < 32
        → IsOfSet (Contains (values C.value members.now)) (unknown_in marks n) (register hart.now.registers n)) }
{
    for n in 0..32u8 {
        if !is_of_set(members, marks.is_unknown(n), hart.reg(n)) {
            return Err(Unshown::Returns {
                place: Place::Root(n as usize),
            });
        }
    }
    Ok(())
}

/// Whether MScratchC is what it was.
fn is_given_back<C: CapRep>(hart: &Hart<C>, marks: Marks, kept: C) -> bool
    ensures exact { IsTrue result → marks.mscratchc ≡ false }
    ensures same { IsTrue result → hart.now.scrs.mscratchc ≡ C.value kept }
{
    !marks.mscratchc && equal_exact(hart.scrs().mscratchc(), kept)
}

/// That the return from a trap leaves any code nothing but what is of its set, and MScratchC as it was.
fn check_return<C: CapRep>(
    hart: &Hart<C>,
    members: &[Member<C>],
    marks: Marks,
    kept: C,
) -> Result<(), Unshown>
    ensures { OnOk result ((o : State) → C.value kept ≡ o.scrs.mscratchc
        → ReturnsToSet (Contains (values C.value members.now)) o marks hart.now) }
{
    check_registers(hart, members, marks)?;
    if !is_of_set(members, marks.mepcc, hart.scrs().mepcc()) {
        return Err(Unshown::Returns {
            place: Place::Root(MEPCC_PLACE),
        });
    }
    if !is_given_back(hart, marks, kept) {
        return Err(Unshown::Returns {
            place: Place::Root(MSCRATCHC_PLACE),
        });
    }
    Ok(())
}

/// What the instruction of a step leads to: the marks after it, where it is followed; `None` where it returns from the trap.
fn after_insn<C: CapRep>(
    hart: &Hart<C>,
    members: &[Member<C>],
    any: &[Range],
    marks: Marks,
    kept: C,
) -> Result<Option<Marks>, Unshown>
    ensures { IfOk result (λ next. (o : State) → C.value kept ≡ o.scrs.mscratchc
        → LeadsOn (Contains (values C.value members.now)) (IsKept (values C.value members.now) any.now) o marks hart.now next) }
{
    let pc = pc_of(hart);
    let planned = hart.next();
    let Some(insn) = planned.fetched.insn() else {
        return Err(Unshown::Unfollowed { pc });
    };
    if is_return(insn, &planned.effect) {
        check_return(hart, members, marks, kept)?;
        return Ok(None);
    }
    match followed(hart, members, any, marks, insn, &planned.effect) {
        Some(later) => Ok(Some(later)),
        None => Err(Unshown::Unfollowed { pc }),
    }
}

/// The marks after a step of the kernel's code, from which on the trap is handled if it is after that step; `None` where it is halted or
/// returns from the trap.
fn after_step<C: CapRep>(
    hart: &Hart<C>,
    members: &[Member<C>],
    any: &[Range],
    rules: &[Rule],
    marks: Marks,
    kept: C,
) -> Result<Option<Marks>, Unshown>
    ensures { IfOk result (λ next. (o : State) → C.value kept ≡ o.scrs.mscratchc
        → IsHandledAfter (terms_of rules.now) (Contains (values C.value members.now)) (IsKept (values C.value members.now) any.now) o
        marks hart.now next) }
{
    check_word(hart, members, any)?;
    check_rules(rules, fetched_at(hart), pc_of(hart))?;
    if hart.halted().is_some() {
        return Ok(None);
    }
    after_insn(hart, members, any, marks, kept)
}

/// Does the steps from a trap's entry to its end, at most `most`, and answers how many: the trap is handled.
fn walk_trap<C: CapRep>(
    hart: &mut Hart<C>,
    members: &[Member<C>],
    any: &[Range],
    rules: &[Rule],
    kept: C,
    most: u64,
) -> Result<u64, Unshown>
    ensures { OnOk result ((o : State) → C.value kept ≡ o.scrs.mscratchc
        → IsHandled (terms_of rules.now) (Contains (values C.value members.now)) (IsKept (values C.value members.now) any.now) o
        entry_marks hart.old) }
{
    let mut marks = Marks::at_entry();
    for steps in 0..most {
        let next = after_step(hart, members, any, rules, marks, kept)?;
        match next {
            Some(later) => {
                hart.event(Event::Step);
                marks = later;
            }
            None => return Ok(steps),
        }
    }
    Err(Unshown::MoreSteps { most })
}

/// Does the code that each trap enters, from there to its end, for at most `most` steps, and answers how many: every trap is handled.
pub(crate) fn handle<C: CapRep>(
    hart: &mut Hart<C>,
    members: &[Member<C>],
    any: &[Range],
    rules: &[Rule],
    most: u64,
) -> Result<u64, Unshown>
    ensures { OnOk result (HandlesTraps (terms_of rules.now) (Contains (values C.value members.now))
        (IsKept (values C.value members.now) any.now) hart.old) }
{
    let kept = hart.scrs().mscratchc();
    enter(hart)?;
    walk_trap(hart, members, any, rules, kept, most)
}
