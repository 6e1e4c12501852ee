//! Why a text is not read as a policy.
ghost use Rattle.std.specs.Prelude.{◌≡◌};
ghost use Rattle.policy_text.specs.declared.fault.Fault.TheVariants as fault;
ghost use Rattle.policy_text.specs.declared.fault.PolicyTextFault.TheVariants as text_fault;
ghost use Rattle.policy_text.specs.FaultAt.{fault_at};

use std::alloc::{AllocError, AllocFailed};

/// What is wrong with a line: its first fault, from left to right.
#[derive(Clone, Copy, Debug, PartialEq, Eq)]
pub enum PolicyCode {
    /// Neither a definition nor a rule, and no ranges of any code: before the first `=` stands anything but one name, or no word after it;
    /// or before the first `:` anything but `when pc in` and a word or more; or there is no `=` and no `:`, and the line is anything but
    /// `any code in` and a word or more.
    P1,
    /// An unknown name: no earlier line defines it and it is no device register's, or, at an end of a range, it is neither a number nor a
    /// label and begins with no digit.
    P2,
    /// A name that is defined already, or is a device register's.
    P3,
    /// A number that is malformed or out of its limits, also where a range would end past 2^64.
    P4,
    /// An empty range: it ends where it begins, or before.
    P5,
    /// A part that begins with another word than the names of parts, or has no word.
    P6,
    /// A part that the rule has already.
    P7,
    /// A part that is malformed in any other way.
    P8,
}

/// Why a text is not read.
#[derive(Clone, Copy, Debug, PartialEq, Eq)]
pub enum PolicyTextFault {
    /// The first faulty line, counted from 1, and what is wrong with it.
    Line { line: u64, code: PolicyCode },
    /// There is no memory.
    Memory,
}

impl From<AllocError> for PolicyTextFault {
    ghost from_gives = { λ _ e. e ≡ text_fault.Memory };

    fn from(_: AllocError) -> PolicyTextFault {
        PolicyTextFault::Memory
    }
}

/// Why a line is not read.
#[derive(Clone, Copy)]
pub(crate) enum Fault {
    /// What is wrong with it.
    Code(PolicyCode),
    /// There is no memory.
    Memory,
}

impl From<PolicyCode> for Fault {
    ghost from_gives = { λ code e. e ≡ fault.Code code };

    fn from(code: PolicyCode) -> Fault {
        Fault::Code(code)
    }
}

impl From<AllocError> for Fault {
    ghost from_gives = { λ _ e. e ≡ fault.Memory };

    fn from(_: AllocError) -> Fault {
        Fault::Memory
    }
}

impl<T: Drop> From<AllocFailed<T>> for Fault {
    ghost from_gives = { λ _ e. e ≡ fault.Memory };

    fn from(_: AllocFailed<T>) -> Fault {
        Fault::Memory
    }
}

impl Fault {
    /// The fault of a text whose line of this number is not read.
    pub(crate) fn at(self, line: u64) -> PolicyTextFault
        ensures { result ≡ fault_at self line }
    {
        match self {
            Fault::Code(code) => PolicyTextFault::Line { line, code },
            Fault::Memory => PolicyTextFault::Memory,
        }
    }
}
