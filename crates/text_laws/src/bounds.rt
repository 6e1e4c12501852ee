//! What holds of the numbers that texts on bounds show: each function's contract is a law, and its body is empty.
ghost use Rattle.text_laws.specs.Bounds.{AlignedBlocksAreExact, BoundsStayFromFirstToLast, WordsStayFromFirstToLast};

/// The bounds that CSetBounds gives of root stay with an address exactly if it lies from the window's first address to its last one,
/// going round at `2^64`.
pub fn bounds_stay_from_first_to_last()
    ensures { BoundsStayFromFirstToLast }
{}

/// From each multiple of the granule of a length, which CRAM masks off, rounding adds nothing below a request of that length, and above
/// it what CRRL adds.
pub fn aligned_blocks_are_exact()
    ensures { AlignedBlocksAreExact }
{}

/// The bounds of a word that may be tagged stay with an address exactly if it lies from the window's first address to its last one,
/// going round at `2^64`.
pub fn words_stay_from_first_to_last()
    ensures { WordsStayFromFirstToLast }
{}
