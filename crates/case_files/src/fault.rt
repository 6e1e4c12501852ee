//! Why a case of a file cannot be tried.

use std::alloc::{AllocError, AllocFailed};
use std::fmt;

/// Why a case cannot be tried.
#[derive(Clone, Copy, Debug)]
pub enum CaseError {
    /// Its inputs are not those that its file's cases have.
    Unreadable,
    /// Memory is out, or a text is cut.
    Memory,
}

impl CaseError {
    /// What is said of it.
    pub fn text(self) -> &'static str {
        match self {
            CaseError::Unreadable => "no case",
            CaseError::Memory => "no memory",
        }
    }
}

impl From<AllocError> for CaseError {
    fn from(_: AllocError) -> Self {
        CaseError::Memory
    }
}

impl<T: Drop> From<AllocFailed<T>> for CaseError {
    fn from(_: AllocFailed<T>) -> Self {
        CaseError::Memory
    }
}

impl From<fmt::Error> for CaseError {
    fn from(_: fmt::Error) -> Self {
        CaseError::Memory
    }
}
