//! Whether the next step is the same whatever isn't known.
ghost use Rattle.std.specs.Prelude.{◌≡◌, ◌==◌, false, Contains, IfOk, OnOk, Some};
ghost use Rattle.devices.specs.Devices.{halt};
ghost use Rattle.isa_rows.specs.declared.operands.Insn as declared;
ghost use Rattle.steps.specs.Applying.{IsPlanned, meant};
ghost use Rattle.steps.specs.IsState.{IsState};
ghost use Rattle.steps.specs.Looks.{HasRegisters};
ghost use Rattle.steps.specs.MemoryRows.{place_of};
ghost use Rattle.steps.specs.State.{pc_of};
ghost use Rattle.steps.specs.SystemRows.{csr_number};
ghost use Rattle.steps.specs.Step.{insn_fetched, step_fetched};
ghost use Rattle.policy.specs.Terms.{Terms, terms_of};
ghost use Rattle.policy.specs.Watch.{Applies};
ghost use Rattle.every_run.specs.Known.{IsOutside};
ghost use Rattle.every_run.specs.Lasting.{NoneApplies};
ghost use Rattle.every_run.specs.Stands.{IsKnownData, IsRunning, LooksAtKnown, LeavesDevices, IsKnownStep, is_steady};

use crate::ranges::touches;
use crate::verdict::Unshown;
use base::csr;
use cap_bounds::CapRep;
use hart::{Hart, Planned};
use isa_rows::{Insn, Kind};
use policy::{Rule, applies, fetched_at};
use reach::{HALT, Range};
use steps::{Effect, Fetched};

/// The address at which the hart stands.
pub(crate) fn pc_of<C: CapRep>(hart: &Hart<C>) -> u64
    ensures value { result ≡ pc_of hart.now }
    ensures state { IsState hart.now }
{
    hart.is_state();
    hart.scrs().pcc().address()
}

/// That the machine runs, no interrupt can be taken, and the word at PCC is known.
fn check_state<C: CapRep>(hart: &Hart<C>, any: &[Range]) -> Result<(), Unshown>
    ensures { OnOk result (IsRunning (IsOutside any.now) hart.now) }
{
    let pc = pc_of(hart);
    if hart.halted().is_some() {
        return Err(Unshown::Halted { pc });
    }
    if hart.csrs().mstatus_mie {
        return Err(Unshown::Interrupts { pc });
    }
    if touches(any, pc, 4) {
        return Err(Unshown::UnknownCode { address: pc });
    }
    Ok(())
}

/// That no rule applies to what is fetched at an address, if anything is.
pub(crate) fn check_rules(rules: &[Rule], at: Option<u64>, pc: u64) -> Result<(), Unshown>
    ensures { OnOk result ((rule : Terms) → Contains (terms_of rules.now) rule → Applies rule at → ⊥) }
{
    for (rule, terms) in rules.iter().enumerate() {
        if applies(terms, at) {
            return Err(Unshown::RuleApplies { rule, pc });
        }
    }
    Ok(())
}

/// Where an instruction accesses memory: rs1's number and the immediate.
pub(crate) fn access_place<C: CapRep>(hart: &Hart<C>, insn: Insn) -> u64
    requires { HasRegisters insn }
    ensures { result ≡ place_of insn hart.now }
{
    hart.reg(insn.rs1).address().wrapping_add(insn.imm)
}

/// That so many bytes from an address lie in RAM, none of them in the ranges.
fn check_data<C: CapRep>(
    hart: &Hart<C>,
    any: &[Range],
    address: u64,
    size: u64,
) -> Result<(), Unshown>
    ensures { OnOk result (IsKnownData (IsOutside any.now) hart.now.memory address size) }
{
    if !hart.memory().is_in_ram(address, size) {
        return Err(Unshown::Device { address });
    }
    if touches(any, address, size) {
        return Err(Unshown::UnknownData { address });
    }
    Ok(())
}

/// Whether the control and status register that an instruction names is one that every run reads the same: not what devices ask for, nor
/// the counters.
fn is_steady(insn: Insn) -> bool
    ensures { result ≡ is_steady (csr_number insn) }
{
    let number = (insn.imm % 0x1000) as u16;
    !(csr::MIP == number || (csr::MCYCLE == number || csr::MINSTRET == number))
}

/// That a control and status register that an instruction uses is one that every run reads the same, and that it loads what is known: a
/// load of data counts as one of 8 bytes.
fn check_looks<C: CapRep>(hart: &Hart<C>, any: &[Range], insn: Insn) -> Result<(), Unshown>
    requires { HasRegisters insn }
    ensures { OnOk result (LooksAtKnown (IsOutside any.now) insn hart.now) }
{
    match insn.row.kind() {
        Kind::Csr if is_steady(insn) => Ok(()),
        Kind::Csr => Err(Unshown::SystemRegister { pc: pc_of(hart) }),
        Kind::Load => check_data(hart, any, access_place(hart, insn), 8),
        Kind::LoadCapability => check_data(hart, any, access_place(hart, insn), 16),
        _ => Ok(()),
    }
}

/// That the instruction that is fetched does, if one is.
fn check_fetched<C: CapRep>(hart: &Hart<C>, any: &[Range], fetched: Fetched) -> Result<(), Unshown>
    requires { fetched ≡ step_fetched hart.now }
    ensures { OnOk result ((insn : declared.Insn) → insn_fetched (step_fetched hart.now) ≡ Some insn
        → LooksAtKnown (IsOutside any.now) insn hart.now) }
{
    match fetched.insn() {
        Some(insn) => check_looks(hart, any, insn),
        None => Ok(()),
    }
}

/// That a store to a device isn't one to halt.
fn check_store(address: u64, pc: u64) -> Result<(), Unshown>
    ensures { OnOk result ((address == halt) ≡ false) }
{
    if address == HALT {
        return Err(Unshown::Halted { pc });
    }
    Ok(())
}

/// That an effect reads no device, and doesn't halt the machine.
fn check_effect<C: CapRep>(effect: &Effect<C>, pc: u64) -> Result<(), Unshown>
    ensures { OnOk result (LeavesDevices (meant C.value effect.now)) }
{
    match effect {
        Effect::DeviceLoad(load) => Err(Unshown::Device {
            address: load.address,
        }),
        Effect::DeviceStore(store) => check_store(store.address, pc),
        _ => Ok(()),
    }
}

/// Plans the next step, if it is the same whatever isn't known, and no rule is about its code.
pub(crate) fn known_step<C: CapRep>(
    hart: &Hart<C>,
    any: &[Range],
    rules: &[Rule],
) -> Result<Planned<C>, Unshown>
    ensures planned { IfOk result (λ planned. IsPlanned C.value planned.effect hart.now) }
    ensures known { OnOk result (IsKnownStep (IsOutside any.now) hart.now) }
    ensures rules { OnOk result (NoneApplies (terms_of rules.now) hart.now) }
{
    check_state(hart, any)?;
    check_rules(rules, fetched_at(hart), pc_of(hart))?;
    let planned = hart.next();
    check_fetched(hart, any, planned.fetched)?;
    check_effect(&planned.effect, pc_of(hart))?;
    Ok(planned)
}
