//! Why a question with labels or by a policy is refused.

ghost use Rattle.std.specs.Prelude.{◌≡◌, ◌≤◌};
ghost use Rattle.cherisim_c.specs.Refusals.{policy_status, refusal_line, refusal_status};

use crate::status::{NO_MEMORY, RANGE};
use policy_text::PolicyCode;

/// The status of a table of labels with a faulty line.
const LABELS: u32 = 57;

/// Why a question with labels or by a policy is refused.
#[derive(Clone, Copy)]
pub(crate) enum Refusal {
    /// The schedule is out of range.
    Schedule,
    /// The first faulty line of the table of labels.
    Labels(u64),
    /// The first faulty line of the policy, and what is wrong with it.
    Text(u64, PolicyCode),
    /// Out of memory.
    Memory,
}

/// The status of a fault of a policy.
fn status_of_policy(code: PolicyCode) -> u32
    ensures { result ≡ policy_status code }
{
    match code {
        PolicyCode::P1 => 49,
        PolicyCode::P2 => 50,
        PolicyCode::P3 => 51,
        PolicyCode::P4 => 52,
        PolicyCode::P5 => 53,
        PolicyCode::P6 => 54,
        PolicyCode::P7 => 55,
        PolicyCode::P8 => 56,
    }
}

impl Refusal {
    /// The status.
    fn status(self) -> u32
        ensures value { result ≡ refusal_status self }
        ensures low { 49 ≤ result }
        ensures high { result ≤ 66 }
    {
        match self {
            Refusal::Schedule => RANGE,
            Refusal::Labels(_) => LABELS,
            Refusal::Text(_, code) => status_of_policy(code),
            Refusal::Memory => NO_MEMORY,
        }
    }

    /// The number of the faulty line, or 0.
    fn line(self) -> u64
        ensures { result ≡ refusal_line self }
    {
        match self {
            Refusal::Labels(line) => line,
            Refusal::Text(line, _) => line,
            Refusal::Schedule => 0,
            Refusal::Memory => 0,
        }
    }

    /// Writes the number of the faulty line, or 0, and answers the status.
    pub(crate) fn report(self, line: &mut u64) -> u32
        ensures value { result ≡ refusal_status self }
        ensures low { 49 ≤ result }
        ensures high { result ≤ 66 }
        ensures line { line.new ≡ refusal_line self }
    {
        *line = self.line();
        self.status()
    }
}
