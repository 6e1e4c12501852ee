//! Steps as texts and as objects: what mcause and mtval say, a register's value, what a step comes to and its line of a trace, and what
//! the next step will do, and why, by its stages with their conditions.
#![tactic(auto)]

mod asked;
mod conditions;
mod effect;
mod line;
mod stages;
mod standing;
mod step_fields;
mod trace;
mod trap;
mod value;
mod why;
mod why_objects;

pub use asm_names::{
    CHERI_CAUSES, EXCEPTIONS, INTERRUPTS, cause_name, cheri_asked_name, cheri_cause_name,
    register_at_fault,
};
pub use conditions::put_bounds;
pub use effect::{effect_text, size_text};
pub use line::{Line, put_word_line, trace_line};
pub use stages::put_failed;
pub use standing::{Standing, put_standing, put_standing_fields};
pub use trace::trace_object;
pub use trap::trap_text;
pub use value::value_text;
pub use why::put_why;
pub use why_objects::put_why_objects;
