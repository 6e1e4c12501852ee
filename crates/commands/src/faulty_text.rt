//! Why a text is not assembled.

use assembler::{AsmFault, FurtherFaults};

/// Why a text is not assembled.
#[derive(Debug, Drop)]
pub struct FaultyText<'a> {
    /// Its file.
    pub name: &'a str,
    /// The first fault of its first faulty line.
    pub fault: AsmFault,
    /// What was read of that line, if that says more.
    pub read: Vec<u8>,
    /// What the author of that line probably meant, if that is known.
    pub hint: Vec<u8>,
    /// What is wrong with later lines by themselves.
    pub further: FurtherFaults,
    /// What the authors of these lines probably meant, in their order.
    pub hints: Vec<Vec<u8>>,
}
