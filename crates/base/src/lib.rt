//! What several crates speak of: sizes of accesses, instructions and capabilities, faults and their causes, the numbers and names of
//! special registers, where RAM lies, and the object types that are reserved.
#![tactic(auto)]

mod cause;
mod fault;
pub mod interrupt;
pub mod laws;
pub mod otype;
pub mod ram;
mod registers;
mod size;

pub use cause::{Cause, CheriCause};
pub use fault::Fault;
pub use registers::{
    CSR_COUNT, CSRS, DDC_REGISTER, FIRST_SPECIAL, Holds, PCC_REGISTER, SPECIAL_REGISTERS,
    SpecialRegister, csr, is_csr, is_scr, scr,
};
pub use size::{CAPABILITY_BYTES, INSTRUCTION_BYTES, Size};
