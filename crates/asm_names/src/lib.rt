//! The names of the assembly language: mnemonics, registers, and the operands that each row is written with; and those of traps.
#![tactic(auto)]

pub mod laws;
mod mnemonics;
mod operands;
mod registers;
mod special_names;
mod trap_names;

pub use isa_rows::{Naming, Slot};
pub use mnemonics::{mnemonic, row_named};
pub use operands::slots_of;
pub use registers::{register_name, register_named};
pub use special_names::{csr_name, csr_named, scr_name, scr_named};
pub use trap_names::{
    CHERI_CAUSES, EXCEPTIONS, INTERRUPTS, cause_name, cheri_asked_name, cheri_cause_name,
    register_at_fault,
};
