//! What several checks share: of one text of a check, the array of its conditions and the chain that reports the first that is false.
//! What reports a fault is inlined always, since at a call its result would go through memory, and each step of the machine makes
//! several checks.

ghost use Rattle.std.specs.Prelude.{◌≡◌, if◌then◌else◌, Ok, Err};
ghost use Rattle.cap_checks.specs.FirstFault as spec;
ghost use Rattle.cap_checks.specs.Question.{fault_of, HasRegister};

use crate::question::Question;
use base::Fault;
use cap_bounds::CapRep;

/// The conditions of a check, in order.
macro_rules! listed {
    ($($question:expr => $holds:expr;)*) => {
        [$($crate::question::Condition { question: $question, holds: $holds }),*]
    };
}

/// Appends a condition to a list.
macro_rules! push {
    ($list:ident: $question:expr => $holds:expr) => {
        $list.push($crate::question::Condition { question: $question, holds: $holds })?;
    };
}

/// Reports the fault of the first condition of a check that is false.
macro_rules! checked {
    ($($question:expr => $holds:expr;)*) => {
        { $($crate::conditions::check($question, $holds)?;)* }
    };
}

/// Reports the fault of a condition that is false; there is no list.
macro_rules! report {
    ($list:ident: $question:expr => $holds:expr) => {
        $crate::conditions::check($question, $holds)?;
    };
}

pub(crate) use checked;
pub(crate) use listed;
pub(crate) use push;
pub(crate) use report;

/// Reports a question's fault unless its answer is yes.
#[inline(always)]
pub(crate) fn check(question: Question, holds: bool) -> Result<(), Fault>
    requires { HasRegister question }
    ensures { result ≡ if holds then Ok tt else Err (fault_of question) }
{
    if holds { Ok(()) } else { Err(question.fault()) }
}

/// Tells whether the `size` bytes from an address lie in the value's bounds.
#[inline(always)]
#[tactic(auto, unfolding(crate::specs::FirstFault::holds))]
pub(crate) fn holds<C: CapRep>(c: C, address: u64, size: u64) -> bool
    ensures { result ≡ spec.holds (C.value c) address size }
{
    c.holds(address, size)
}
