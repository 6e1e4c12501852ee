//! What a run of a program on its schedule shows of a policy: each part of a rule that is broken in it; and without a policy, what the code
//! in each range that it enters can do. Each as a text, or as objects of JSON.
#![tactic(auto)]

mod audit;
mod entries;
mod finding;
mod findings;
mod line;
mod object;
mod part;
mod ranges;
mod report;
mod rules;
mod run;
mod search;
mod types;

pub use audit::Audit;
pub use entries::entries_run;
pub use finding::Finding;
pub use report::Report;
pub use rules::{rule_line, rule_lines};
pub use run::audit_run;
