//! How an instruction makes what it writes into its register.
ghost use Rattle.std.specs.Prelude.{◌≡◌, ◌<◌};
ghost use Rattle.steps.specs.Looks.{HasRegisters, number_in, in_capability_mode, next_of};
ghost use Rattle.cap_rights.specs.Perms.{perms_in_view};
ghost use Rattle.steps.specs.MemoryRows.{place_of};
ghost use Rattle.isa_rows.specs.Kind.{kind_of};
ghost use Rattle.origins.specs.Made as spec;

use crate::making::Making;
use crate::place::Place;
use base::scr;
use cap_bounds::CapRep;
use cap_rights::Perms;
use hart::{Hart, through_rs1};
use isa_rows::{Insn, Kind, Row};

/// The number in a register.
fn number<C: CapRep>(hart: &Hart<C>, n: u8) -> u64
    requires { n < 32 }
    ensures { result ≡ number_in hart.now n }
{
    hart.reg(n).address()
}

/// Whether PCC's flag says capability mode.
fn is_capability_mode<C: CapRep>(hart: &Hart<C>) -> bool
    ensures { result ≡ in_capability_mode hart.now }
{
    hart.scrs().pcc().flag()
}

/// The address of the instruction after this one.
pub(crate) fn next_address<C: CapRep>(hart: &Hart<C>) -> u64
    ensures { result ≡ next_of hart.now }
{
    hart.scrs().pcc().address().wrapping_add(4)
}

/// A source with another address.
fn moved(from: Place, address: u64) -> Making
    ensures { result ≡ Making.Moved from address }
{
    Making::Moved { from, address }
}

/// A source with other bounds.
fn bounded(from: Place, length: u64) -> Making
    ensures { result ≡ Making.Bounded from length }
{
    Making::Bounded { from, length }
}

/// A source with exactly these bounds.
fn bounded_exactly(from: Place, length: u64) -> Making
    ensures { result ≡ Making.BoundedExactly from length }
{
    Making::BoundedExactly { from, length }
}

/// A source sealed by an authority.
fn sealed(from: Place, authority: Place) -> Making
    ensures { result ≡ Making.Sealed from authority }
{
    Making::Sealed { from, authority }
}

/// A source unsealed by an authority.
fn unsealed(from: Place, authority: Place) -> Making
    ensures { result ≡ Making.Unsealed from authority }
{
    Making::Unsealed { from, authority }
}

/// A source with those of its permissions that a number names.
#[tactic(auto, unfolding(cap_rights::specs::Perms::perms_in_view))]
fn restricted(from: Place, view: u64) -> Making
    ensures { result ≡ Making.Restricted from (perms_in_view view) }
{
    let mask = Perms::from_hardware(view).bits();
    Making::Restricted { from, mask }
}

/// A source with another flag.
fn flagged(from: Place, flag: bool) -> Making
    ensures { result ≡ Making.Flagged from flag }
{
    Making::Flagged { from, flag }
}

/// How a row over capabilities that touches neither memory nor special registers and does not jump makes its value.
#[tactic(auto, unfolding(crate::specs::Made::row_making))]
fn row_making<C: CapRep>(hart: &Hart<C>, insn: Insn) -> Making
    requires { HasRegisters insn }
    ensures { result ≡ spec.row_making insn.row insn hart.now }
{
    let from = Place::Register(insn.rs1);
    let by = Place::Register(insn.rs2);
    let operand = number(hart, insn.rs2);
    match insn.row {
        Row::CIncOffsetImm => moved(from, number(hart, insn.rs1).wrapping_add(insn.imm)),
        Row::CSetBoundsImm => bounded(from, insn.imm),
        Row::CSetBounds => bounded(from, operand),
        Row::CSetBoundsExact => bounded_exactly(from, operand),
        Row::CSeal => sealed(from, by),
        Row::CUnseal => unsealed(from, by),
        Row::CAndPerm => restricted(from, operand),
        Row::CSetFlags => flagged(from, operand % 2 == 1),
        Row::CSetOffset => moved(from, hart.reg(insn.rs1).base().wrapping_add(operand)),
        Row::CSetAddr => moved(from, operand),
        Row::CIncOffset => moved(from, number(hart, insn.rs1).wrapping_add(operand)),
        Row::CSub => Making::Number,
        Row::CTestSubset => Making::Number,
        Row::CSetEqualExact => Making::Number,
        Row::CGetPerm => Making::Number,
        Row::CGetType => Making::Number,
        Row::CGetBase => Making::Number,
        Row::CGetLen => Making::Number,
        Row::CGetTag => Making::Number,
        Row::CGetSealed => Making::Number,
        Row::CGetOffset => Making::Number,
        Row::CGetFlags => Making::Number,
        Row::Crrl => Making::Number,
        Row::Cram => Making::Number,
        Row::CClearTag => Making::Cleared(from),
        Row::CGetAddr => Making::Number,
        Row::CSealEntry => Making::SealedEntry(from),
        _ => Making::Copied(from),
    }
}

/// A link: PCC at the next instruction, sealed as an entry.
fn linked<C: CapRep>(hart: &Hart<C>) -> Making
    ensures { result ≡ Making.Linked (next_of hart.now) }
{
    Making::Linked {
        address: next_address(hart),
    }
}

/// The link of a jump within PCC, by the mode.
fn link_making<C: CapRep>(hart: &Hart<C>) -> Making
    ensures { result ≡ spec.link_making hart.now }
{
    if is_capability_mode(hart) {
        linked(hart)
    } else {
        Making::Number
    }
}

/// AUIPC, by the mode.
fn auipc_making<C: CapRep>(hart: &Hart<C>, insn: Insn) -> Making
    ensures { result ≡ spec.auipc_making insn hart.now }
{
    if is_capability_mode(hart) {
        let pc = hart.scrs().pcc().address();
        moved(Place::Special(scr::PCC), pc.wrapping_add(insn.imm))
    } else {
        Making::Number
    }
}

/// What holds the authority of an access.
fn authority_place<C: CapRep>(hart: &Hart<C>, insn: Insn) -> Place
    ensures { result ≡ spec.authority_place insn hart.now }
{
    if through_rs1(insn.row, is_capability_mode(hart)) {
        Place::Register(insn.rs1)
    } else {
        Place::Special(scr::DDC)
    }
}

/// LC.
fn loaded<C: CapRep>(hart: &Hart<C>, insn: Insn) -> Making
    requires { HasRegisters insn }
    ensures { result ≡ Making.Loaded (place_of insn hart.now) (spec.authority_place insn hart.now) }
{
    Making::Loaded {
        address: number(hart, insn.rs1).wrapping_add(insn.imm),
        authority: authority_place(hart, insn),
    }
}

/// How an instruction makes what it writes into its register.
#[tactic(auto, unfolding(crate::specs::Made::register_making))]
pub(crate) fn register_making<C: CapRep>(hart: &Hart<C>, insn: Insn) -> Making
    requires { HasRegisters insn }
    ensures { result ≡ spec.register_making (kind_of insn.row) insn hart.now }
{
    match insn.row.kind() {
        Kind::Capability => row_making(hart, insn),
        Kind::Auipc => auipc_making(hart, insn),
        Kind::Jal | Kind::Jalr => link_making(hart),
        Kind::JalrCap => linked(hart),
        Kind::Invoke => Making::Opened(Place::Register(insn.rs2)),
        Kind::LoadCapability => loaded(hart, insn),
        Kind::SpecialRw => Making::Copied(Place::Special(insn.rs2)),
        _ => Making::Number,
    }
}
