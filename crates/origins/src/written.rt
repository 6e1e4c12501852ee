//! What a step writes at a place: the effect says whether and where, and the instruction of what.
ghost use Rattle.std.specs.Prelude.{◌≡◌, ◌*◌, ◌/◌, ◌&&◌, not, if◌then◌else◌, ◌==◌, IfSome, Some, None};
ghost use Rattle.base.specs.Size.{bytes_of};
ghost use Rattle.cap_bounds.specs.CapValue.{is_tagged, value_address};
ghost use Rattle.cap_bounds.specs.SetAddress.{at_address};
ghost use Rattle.steps.specs.Applying.{meant, IsPlanned};
ghost use Rattle.steps.specs.Looks.{HasRegisters};
ghost use Rattle.steps.specs.Step.{insn_fetched, step_fetched};
ghost use Rattle.origins.specs.Kept.{AreThere};
ghost use Rattle.origins.specs.Made as spec;
ghost use Rattle.origins.specs.Parts.{by_insn};
ghost use Rattle.origins.specs.Places.{IsThere, mepcc};
ghost use Rattle.tagged_memory.specs.Memory as memory;

use crate::making::Making;
use crate::place::Place;
use crate::rows::{next_address, register_making};
use base::{Fault, csr, scr};
use cap_bounds::CapRep;
use hart::Hart;
use isa_rows::Insn;
use machine::{Machine, Planned};
use special_regs::{entry_address, mtvec_of};
use steps::Effect;

// ---- registers

/// The register that an effect writes.
fn written_register<C: CapRep>(effect: &Effect<C>) -> Option<u8>
    ensures { result ≡ spec.written_register (meant C.value effect.now) }
{
    match effect {
        Effect::Write(write) => Some(write.rd),
        Effect::Unseal(write) => Some(write.rd),
        Effect::DeviceLoad(load) => Some(load.rd),
        Effect::Link(link) => Some(link.rd),
        Effect::Enter(enter) => Some(enter.rd),
        Effect::Special(write) => Some(write.rd),
        Effect::Csr(write) => Some(write.rd),
        _ => None,
    }
}

/// What an effect that is no trap writes into a register. A write to register 0 is lost.
#[tactic(auto, unfolding(crate::specs::Made::insn_made))]
fn register_made<C: CapRep>(
    hart: &Hart<C>,
    effect: &Effect<C>,
    insn: Option<Insn>,
    n: u8,
) -> Option<Making>
    requires { IfSome insn HasRegisters }
    ensures { result ≡ spec.made_by_insn (Place.Register n) (meant C.value effect.now) insn hart.now }
{
    match written_register(effect) {
        Some(rd) => {
            if n == rd && n != 0 {
                let insn = insn?;
                Some(register_making(hart, insn))
            } else {
                None
            }
        }
        None => None,
    }
}

// ---- special registers

/// Whether a value loses its tag at another address.
fn loses_tag<C: CapRep>(c: C, address: u64) -> bool
    ensures { result ≡ (is_tagged (C.value c) && not (is_tagged (at_address (C.value c) address))) }
{
    c.tag() && !c.set_address(address).tag()
}

/// PCC where only its address moves: a write of it where the address leaves its window, so that it loses its tag.
fn pcc_moved<C: CapRep>(hart: &Hart<C>, insn: Option<Insn>, address: u64) -> Option<Making>
    ensures { result ≡ by_insn insn (λ insn. spec.pcc_moved address hart.now) }
{
    if loses_tag(hart.scrs().pcc(), address) {
        insn?;
        Some(Making::Moved {
            from: Place::Special(scr::PCC),
            address,
        })
    } else {
        None
    }
}

/// PCC after a jump to a capability.
fn pcc_entered(insn: Option<Insn>, target: u64) -> Option<Making>
    ensures { result ≡ by_insn insn (λ insn. Some (Making.Entered (Place.Register insn.rs1) target)) }
{
    let insn = insn?;
    Some(Making::Entered {
        from: Place::Register(insn.rs1),
        address: target,
    })
}

/// PCC after a return.
fn pcc_returned<C: CapRep>(hart: &Hart<C>, insn: Option<Insn>) -> Option<Making>
    ensures { result
        ≡ by_insn insn (λ insn. Some (Making.Resumed mepcc (value_address hart.now.scrs.mepcc / 4 * 4))) }
{
    insn?;
    Some(Making::Resumed {
        from: Place::Special(scr::MEPCC),
        address: hart.scrs().mepcc().address() / 4 * 4,
    })
}

/// What an effect that is no trap makes of PCC.
fn pcc_made<C: CapRep>(hart: &Hart<C>, effect: &Effect<C>, insn: Option<Insn>) -> Option<Making>
    ensures { result ≡ by_insn insn (λ insn. spec.pcc_made (meant C.value effect.now) insn hart.now) }
{
    match effect {
        Effect::Enter(enter) => pcc_entered(insn, enter.target),
        Effect::Return { .. } => pcc_returned(hart, insn),
        Effect::Jump(target) => pcc_moved(hart, insn, *target),
        Effect::Link(link) => pcc_moved(hart, insn, link.target),
        _ => pcc_moved(hart, insn, next_address(hart)),
    }
}

/// What a write of a control and status register makes of a special register: mtvec and mepc are views of MTCC and MEPCC.
fn view_made(insn: Option<Insn>, n: u8, number: u16, value: u64) -> Option<Making>
    ensures { result ≡ by_insn insn (λ insn. spec.view_made n number value) }
{
    if n == scr::MTCC && number == csr::MTVEC {
        insn?;
        Some(Making::Moved {
            from: Place::Special(scr::MTCC),
            address: mtvec_of(value),
        })
    } else if n == scr::MEPCC && number == csr::MEPC {
        insn?;
        Some(Making::Moved {
            from: Place::Special(scr::MEPCC),
            address: value / 4 * 4,
        })
    } else {
        None
    }
}

/// What an exchange of special register `number` makes of special register `n`.
fn exchanged(insn: Option<Insn>, n: u8, number: u8) -> Option<Making>
    ensures { result
        ≡ by_insn insn (λ insn. if n == number then Some (Making.Copied (Place.Register insn.rs1)) else None) }
{
    if n == number {
        let insn = insn?;
        Some(Making::Copied(Place::Register(insn.rs1)))
    } else {
        None
    }
}

/// What an effect that is no trap makes of another special register than PCC.
fn other_made<C: CapRep>(effect: &Effect<C>, insn: Option<Insn>, n: u8) -> Option<Making>
    ensures { result ≡ by_insn insn (λ insn. spec.other_made n (meant C.value effect.now) insn) }
{
    match effect {
        Effect::Special(write) => exchanged(insn, n, write.number),
        Effect::Csr(write) => view_made(insn, n, write.number, write.value),
        _ => None,
    }
}

/// What an effect that is no trap makes of a special register.
#[tactic(auto, unfolding(crate::specs::Made::insn_made))]
fn special_made<C: CapRep>(
    hart: &Hart<C>,
    effect: &Effect<C>,
    insn: Option<Insn>,
    n: u8,
) -> Option<Making>
    ensures { result ≡ spec.made_by_insn (Place.Special n) (meant C.value effect.now) insn hart.now }
{
    if n == scr::PCC {
        pcc_made(hart, effect, insn)
    } else {
        other_made(effect, insn, n)
    }
}

// ---- granules

/// Whether one of so many bytes from an address lies in a granule.
fn touches(address: u64, size: u64, granule: u64) -> bool
    ensures { result ≡ memory.touches address size granule }
{
    let first = u128::from(address);
    let place = u128::from(granule);
    0 < size && place < first + u128::from(size) && first < place + 16
}

/// A number where bytes are stored in a granule.
fn stored(insn: Option<Insn>, touched: bool) -> Option<Making>
    ensures { result ≡ by_insn insn (λ insn. if touched then Some Making.Number else None) }
{
    if touched {
        insn?;
        Some(Making::Number)
    } else {
        None
    }
}

/// A copy of rs2 where a capability is stored in a granule.
fn capability_stored(insn: Option<Insn>, here: bool) -> Option<Making>
    ensures { result
        ≡ by_insn insn (λ insn. if here then Some (Making.Copied (Place.Register insn.rs2)) else None) }
{
    if here {
        let insn = insn?;
        Some(Making::Copied(Place::Register(insn.rs2)))
    } else {
        None
    }
}

/// What an effect that is no trap writes into a granule.
#[tactic(auto, unfolding(crate::specs::Made::insn_made))]
fn granule_made<C: CapRep>(
    hart: &Hart<C>,
    effect: &Effect<C>,
    insn: Option<Insn>,
    address: u64,
) -> Option<Making>
    ensures { result ≡ spec.made_by_insn (Place.Granule address) (meant C.value effect.now) insn hart.now }
{
    match effect {
        Effect::Store(store) => {
            stored(insn, touches(store.address, store.size.bytes(), address))
        }
        Effect::StoreCapability(store) => capability_stored(insn, address == store.address),
        _ => None,
    }
}

// ---- traps

/// What a trap writes at a place: MEPCC is PCC, and PCC where MTCC says.
#[tactic(auto, unfolding(crate::specs::Made::trap_made))]
fn trap_made<C: CapRep>(hart: &Hart<C>, fault: Fault, place: Place) -> Option<Making>
    ensures { result ≡ spec.trap_made place fault hart.now }
{
    match place {
        Place::Special(scr::PCC) => Some(Making::Resumed {
            from: Place::Special(scr::MTCC),
            address: entry_address(fault, hart.scrs().mtcc().address()),
        }),
        Place::Special(scr::MEPCC) => Some(Making::Copied(Place::Special(scr::PCC))),
        _ => None,
    }
}

/// What an effect writes at a place, of this instruction where it is no trap.
fn made_by<C: CapRep>(
    hart: &Hart<C>,
    effect: &Effect<C>,
    insn: Option<Insn>,
    place: Place,
) -> Option<Making>
    requires registers { IfSome insn HasRegisters }
    requires insn { insn ≡ insn_fetched (step_fetched hart.now) }
    ensures { result ≡ spec.made_by place (meant C.value effect.now) hart.now }
{
    match (effect, place) {
        (Effect::Trap(fault), _) => trap_made(hart, *fault, place),
        (_, Place::Register(n)) => register_made(hart, effect, insn, n),
        (_, Place::Special(n)) => special_made(hart, effect, insn, n),
        (_, Place::Granule(address)) => granule_made(hart, effect, insn, address),
    }
}

/// How the next step makes what it writes at a place; none where it writes nothing there. It is planned of this state.
///
/// It takes no memory.
#[tactic(auto, unfolding(crate::specs::Made::step_made))]
pub fn step_made<C: CapRep>(
    machine: &Machine<C>,
    planned: &Planned<C>,
    place: Place,
) -> Option<Making>
    requires planned { IsPlanned C.value planned.now.effect machine.now }
    requires fetched { planned.now.fetched ≡ step_fetched machine.now }
    requires there { IsThere place machine.now }
    ensures value { result ≡ spec.step_made place machine.now }
    ensures there { IfSome result (λ making. AreThere making machine.now) }
{
    if machine.halted().is_some() {
        return None;
    }
    made_by(
        machine.hart(),
        &planned.effect,
        planned.fetched.insn(),
        place,
    )
}
