use crate::misplaced::Misplaced;
use asm_lines::Range;

/// What is known of a fault, beside the part of the line that it is about.
#[derive(Clone, Copy)]
pub enum Reason {
    /// The operands are not what the mnemonic takes (A2).
    Form,
    /// The directive stands once, and stood before (A2).
    Repeated,
    /// The directive stands once, before other statements (A2).
    Late,
    /// A number out of this range, or a value that is beyond all numbers (A3).
    Number(Range),
    /// A value out of this range (A3).
    Value(i128, Range),
    /// A target so far away, which is no even distance in this range (A6).
    Target(i128, Range),
    /// What `la` or `cla` loads, so far away, which is no distance in this range (A6).
    Load(i128, Range),
    /// A value that is no entry of an image of so many pages (A6).
    Entry(u64, u32),
    /// A place that is invalid in an image of so many pages (A7).
    Place(u128, Misplaced, u32),
    /// A base and a length that are no exact bounds (A11).
    Bounds(u64, u64),
}
