//! The special registers by number and name.

ghost use Rattle.std.specs.Prelude.{◌≡◌, ◌==◌};
ghost use Rattle.std.specs.List.{list_any};
ghost use Rattle.base.specs.Registers as spec;

/// Where the special capability registers begin among the registers of a fault.
pub const FIRST_SPECIAL: u64 = 32;

/// The program counter capability among the registers of a fault.
pub const PCC_REGISTER: u64 = FIRST_SPECIAL + scr::PCC as u64;

/// The default data capability among the registers of a fault.
pub const DDC_REGISTER: u64 = FIRST_SPECIAL + scr::DDC as u64;

/// The numbers of the special capability registers (UCAM-CL-TR-987, CHERI-RISC-V special capability registers).
pub mod scr {
    /// The program counter capability.
    pub const PCC: u8 = 0;

    /// The default data capability.
    pub const DDC: u8 = 1;

    /// The machine trap code capability: where a trap goes.
    pub const MTCC: u8 = 28;

    /// The machine trap data capability.
    pub const MTDC: u8 = 29;

    /// The machine scratch capability.
    pub const MSCRATCHC: u8 = 30;

    /// The machine exception program counter capability: PCC at the last trap.
    pub const MEPCC: u8 = 31;
}

/// The numbers of the control and status registers (RISC-V privileged manual, CSR listing).
pub mod csr {
    /// Whether interrupts are on, and whether they were before the last trap.
    pub const MSTATUS: u16 = 0x300;

    /// The instruction set; it is only read, though writes of it are no fault.
    pub const MISA: u16 = 0x301;

    /// The interrupts that may be taken.
    pub const MIE: u16 = 0x304;

    /// A view of MTCC's address.
    pub const MTVEC: u16 = 0x305;

    /// A number that software keeps.
    pub const MSCRATCH: u16 = 0x340;

    /// A view of MEPCC's address.
    pub const MEPC: u16 = 0x341;

    /// The cause of the last trap.
    pub const MCAUSE: u16 = 0x342;

    /// What the cause says more of.
    pub const MTVAL: u16 = 0x343;

    /// The interrupts that devices ask for; writes change nothing.
    pub const MIP: u16 = 0x344;

    /// Steps, modulo `2^64`.
    pub const MCYCLE: u16 = 0xb00;

    /// Instructions done, modulo `2^64`.
    pub const MINSTRET: u16 = 0xb02;
}

/// What misa reads: 64-bit registers, the base set I and the extension M.
const INSTRUCTION_SET: u64 = 0x8000_0000_0000_1100;

/// What a special register holds.
#[derive(Clone, Copy, Debug, PartialEq, Eq)]
pub enum Holds {
    /// What was written last, of these bits.
    Written(u64),
    /// This number, whatever is written.
    Fixed(u64),
    /// A part of the machine, which says itself what a read gives and what a write leaves.
    Part,
}

/// A special register: its number, its name, and what it holds.
pub type SpecialRegister = (u16, &'static str, Holds);

/// The special capability registers that there are, in order of number, with their names.
pub const SPECIAL_REGISTERS: [SpecialRegister; 6] = [
    (scr::PCC as u16, "pcc", Holds::Part),
    (scr::DDC as u16, "ddc", Holds::Part),
    (scr::MTCC as u16, "mtcc", Holds::Part),
    (scr::MTDC as u16, "mtdc", Holds::Part),
    (scr::MSCRATCHC as u16, "mscratchc", Holds::Part),
    (scr::MEPCC as u16, "mepcc", Holds::Part),
];

/// How many control and status registers there are.
pub const CSR_COUNT: usize = 15;

/// The control and status registers that there are, in order of number: a line each, with the number, the name, and what is stored, by
/// the bits that a write sets, or what a read gives.
pub const CSRS: [SpecialRegister; CSR_COUNT] = [
    (csr::MSTATUS, "mstatus", Holds::Part),
    (csr::MISA, "misa", Holds::Fixed(INSTRUCTION_SET)),
    (csr::MIE, "mie", Holds::Part),
    (csr::MTVEC, "mtvec", Holds::Part),
    (csr::MSCRATCH, "mscratch", Holds::Written(u64::MAX)),
    (csr::MEPC, "mepc", Holds::Part),
    (csr::MCAUSE, "mcause", Holds::Part),
    (csr::MTVAL, "mtval", Holds::Part),
    (csr::MIP, "mip", Holds::Part),
    (csr::MCYCLE, "mcycle", Holds::Part),
    (csr::MINSTRET, "minstret", Holds::Part),
    // Who made the machine.
    (0xf11, "mvendorid", Holds::Fixed(0)),
    // The machine's architecture.
    (0xf12, "marchid", Holds::Fixed(0)),
    // The machine's version.
    (0xf13, "mimpid", Holds::Fixed(0)),
    // Which hart it is.
    (0xf14, "mhartid", Holds::Fixed(0)),
];

/// Whether there is a control and status register of this number.
pub fn is_csr(number: u16) -> bool
    ensures { result ≡ spec.is_csr number }
{
    is_listed(&CSRS, number)
}

/// Whether there is a special capability register of this number.
pub fn is_scr(number: u8) -> bool
    ensures { result ≡ spec.is_scr number }
{
    is_listed(&SPECIAL_REGISTERS, u16::from(number))
}

fn is_listed(registers: &[SpecialRegister], number: u16) -> bool
    ensures { result ≡ list_any (λ r. r.0 == number) registers.now }
{
    registers.iter().any(|r| r.0 == number)
}
