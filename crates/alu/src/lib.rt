//! Integer arithmetic: what the rows of RV64I and M compute from two numbers.
#![tactic(auto)]

mod arithmetic;
mod branches;
mod division;
mod products;
mod readings;

pub use arithmetic::int_op;
pub use branches::branch_taken;
pub use products::mul_div;
