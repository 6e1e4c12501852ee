//! Worked states: what meets the premises of the laws on authority, two worlds, reach, doors, turns, loans, policies and what holds for
//! ever, and what they say of it. Each function's contract is a law, and its body calls the laws that it stands on.
#![tactic(auto)]

pub mod counter;
pub mod enclosure;
pub mod loan;
pub mod pair;
