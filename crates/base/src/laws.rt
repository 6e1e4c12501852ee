//! What holds of the constants here: each function's contract is a law, and its body is empty. The numbers are the manuals', as literals,
//! so that a constant that is another number is refused, though definitions take it from the code.

ghost use Rattle.std.specs.Prelude.{◌≡◌, ◌-◌, ◌^◌, ◌∷◌, [], codes};
ghost use Rattle.base.specs.declared.cause.Cause.TheVariants as cause;
ghost use Rattle.base.specs.declared.cause.CheriCause.TheVariants as cheri_cause;
ghost use Rattle.base.specs.declared.interrupt.TheConstants.{CAUSE, TIMER, EXTERNAL};
ghost use Rattle.base.specs.declared.otype.TheConstants.{UNSEALED, SENTRY, FIRST_RESERVED};
ghost use Rattle.base.specs.declared.registers.Holds.TheVariants.{Written, Fixed, Part};
ghost use Rattle.base.specs.declared.ram.TheConstants.{BASE, PAGE_BYTES, MOST_PAGES, MOST_PAGES_VERSION_1};
ghost use Rattle.base.specs.declared.registers.csr.TheConstants.{MSTATUS, MISA, MIE, MTVEC, MSCRATCH, MEPC, MCAUSE, MTVAL, MIP};
ghost use Rattle.base.specs.declared.registers.csr.TheConstants.{MCYCLE, MINSTRET};
ghost use Rattle.base.specs.declared.registers.scr.TheConstants.{PCC, DDC, MTCC, MTDC, MSCRATCHC, MEPCC};
ghost use Rattle.base.specs.Fault.{number_of, cheri_number_of};
ghost use Rattle.base.specs.Registers.{listing, special_registers, special_register, pcc_register, ddc_register};

use crate::registers::{DDC_REGISTER, FIRST_SPECIAL, PCC_REGISTER};

/// The numbers of the special capability registers among the registers of a fault: each constant is what its name says.
pub fn special_registers_at_fault()
    ensures first { FIRST_SPECIAL ≡ special_register 0 }
    ensures pcc { PCC_REGISTER ≡ pcc_register }
    ensures ddc { DDC_REGISTER ≡ ddc_register }
{}

/// The numbers of the control and status registers (RISC-V privileged manual, CSR listing).
pub fn numbers_of_control_and_status_registers()
    ensures mstatus { MSTATUS ≡ 0x300 }
    ensures misa { MISA ≡ 0x301 }
    ensures mie { MIE ≡ 0x304 }
    ensures mtvec { MTVEC ≡ 0x305 }
    ensures mscratch { MSCRATCH ≡ 0x340 }
    ensures mepc { MEPC ≡ 0x341 }
    ensures mcause { MCAUSE ≡ 0x342 }
    ensures mtval { MTVAL ≡ 0x343 }
    ensures mip { MIP ≡ 0x344 }
    ensures mcycle { MCYCLE ≡ 0xb00 }
    ensures minstret { MINSTRET ≡ 0xb02 }
{}

/// Which control and status registers there are, by number and name, and what each holds (RISC-V privileged manual, CSR listing and
/// machine-level CSRs): misa says RV64IM, mscratch keeps all that is written, and those that name the machine say nothing of it.
pub fn control_and_status_registers()
    ensures { listing ≡ (0x300, codes "mstatus", Part) ∷ (0x301, codes "misa", Fixed 0x8000000000001100) ∷ (0x304, codes "mie", Part)
        ∷ (0x305, codes "mtvec", Part) ∷ (0x340, codes "mscratch", Written (2 ^ 64 - 1)) ∷ (0x341, codes "mepc", Part)
        ∷ (0x342, codes "mcause", Part) ∷ (0x343, codes "mtval", Part) ∷ (0x344, codes "mip", Part) ∷ (0xb00, codes "mcycle", Part)
        ∷ (0xb02, codes "minstret", Part) ∷ (0xf11, codes "mvendorid", Fixed 0) ∷ (0xf12, codes "marchid", Fixed 0)
        ∷ (0xf13, codes "mimpid", Fixed 0) ∷ (0xf14, codes "mhartid", Fixed 0) ∷ [] }
{}

/// The numbers of the special capability registers (UCAM-CL-TR-987, CHERI-RISC-V special capability registers).
pub fn numbers_of_special_registers()
    ensures pcc { PCC ≡ 0 }
    ensures ddc { DDC ≡ 1 }
    ensures mtcc { MTCC ≡ 28 }
    ensures mtdc { MTDC ≡ 29 }
    ensures mscratchc { MSCRATCHC ≡ 30 }
    ensures mepcc { MEPCC ≡ 31 }
{}

/// Which special capability registers there are, by number and name (UCAM-CL-TR-987, CHERI-RISC-V special capability registers).
pub fn names_of_special_registers()
    ensures { special_registers ≡ (0, codes "pcc") ∷ (1, codes "ddc") ∷ (28, codes "mtcc") ∷ (29, codes "mtdc") ∷ (30, codes "mscratchc")
        ∷ (31, codes "mepcc") ∷ [] }
{}

/// The interrupts by their numbers, and what stands in mcause beside them (RISC-V privileged manual, mcause).
pub fn numbers_of_interrupts()
    ensures timer { TIMER ≡ 7 }
    ensures external { EXTERNAL ≡ 11 }
    ensures cause { CAUSE ≡ 0x8000000000000000 }
{}

/// The object types with a meaning of their own: 2^18 less 1, 2 and 4 (UCAM-CL-TR-987, object types).
pub fn numbers_of_object_types()
    ensures unsealed { UNSEALED ≡ 0x3ffff }
    ensures sentry { SENTRY ≡ 0x3fffe }
    ensures reserved { FIRST_RESERVED ≡ 0x3fffc }
{}

/// Where RAM lies, and how large it can be.
pub fn numbers_of_ram()
    ensures base { BASE ≡ 0x80000000 }
    ensures page { PAGE_BYTES ≡ 4096 }
    ensures pages { MOST_PAGES ≡ 65536 }
    ensures pages_of_version_1 { MOST_PAGES_VERSION_1 ≡ 4096 }
{}

/// The exceptions by their numbers in mcause (RISC-V privileged manual, mcause; UCAM-CL-TR-987, CHERI exception).
pub fn numbers_of_causes()
    ensures misaligned_jump { number_of cause.MisalignedJump ≡ 0 }
    ensures fetch_access { number_of cause.FetchAccess ≡ 1 }
    ensures illegal_instruction { number_of cause.IllegalInstruction ≡ 2 }
    ensures breakpoint { number_of cause.Breakpoint ≡ 3 }
    ensures misaligned_load { number_of cause.MisalignedLoad ≡ 4 }
    ensures load_access { number_of cause.LoadAccess ≡ 5 }
    ensures misaligned_store { number_of cause.MisalignedStore ≡ 6 }
    ensures store_access { number_of cause.StoreAccess ≡ 7 }
    ensures environment_call { number_of cause.EnvironmentCall ≡ 11 }
    ensures cheri { number_of cause.Cheri ≡ 0x1c }
{}

/// What a capability forbids by its number in mtval (UCAM-CL-TR-987, capability exception codes).
pub fn numbers_of_cheri_causes()
    ensures length { cheri_number_of cheri_cause.Length ≡ 1 }
    ensures tag { cheri_number_of cheri_cause.Tag ≡ 2 }
    ensures seal { cheri_number_of cheri_cause.Seal ≡ 3 }
    ensures other_type { cheri_number_of cheri_cause.Type ≡ 4 }
    ensures execute { cheri_number_of cheri_cause.Execute ≡ 17 }
    ensures load { cheri_number_of cheri_cause.Load ≡ 18 }
    ensures store { cheri_number_of cheri_cause.Store ≡ 19 }
    ensures store_capability { cheri_number_of cheri_cause.StoreCapability ≡ 21 }
    ensures store_local_capability { cheri_number_of cheri_cause.StoreLocalCapability ≡ 22 }
    ensures access_system_registers { cheri_number_of cheri_cause.AccessSystemRegisters ≡ 24 }
    ensures cinvoke { cheri_number_of cheri_cause.CInvoke ≡ 25 }
{}
