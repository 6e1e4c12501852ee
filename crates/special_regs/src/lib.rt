//! Control and status registers, special capability registers, traps, and the choice of an interrupt.
#![tactic(auto)]

mod access;
mod bits;
mod csrs;
mod interrupts;
pub mod laws;
mod mtvec;
mod parts;
mod reads;
mod refusal;
mod scrs;
mod traps;
mod writes;

pub use access::{
    Condition, check_csr, check_scr, csr_conditions, return_conditions, scr_conditions,
};
pub use csrs::Csrs;
pub use interrupts::{Interrupt, pending};
pub use mtvec::mtvec_of;
pub use parts::{csr_value, set_csr};
pub use reads::{held_csr, read_csr};
pub use refusal::SpecialFault;
pub use scrs::Scrs;
pub use traps::{check_return, enter_trap, entry_address, leave_trap, return_from_trap, target};
pub use writes::{special_rw, write_csr};
