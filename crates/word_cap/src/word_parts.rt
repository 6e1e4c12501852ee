/// The parts that the bounds of a word are decoded from (UCAM-CL-TR-987, CHERI Concentrate, decoding).
///
/// The address, the base and the top are each cut at bit `e + 14`. The corrections say by how many such blocks the base and
/// the top lie from the address's.
#[derive(Clone, Copy, Debug, PartialEq, Eq)]
pub struct Parts {
    /// E, the exponent, at most 52.
    pub e: u8,
    /// B, the 14 bits of the base from bit `e` on.
    pub b: u16,
    /// T, the 14 bits of the top from bit `e` on.
    pub t: u16,
    /// The eighth of a block, 0 to 7, at which the representable space begins: the one before the base's.
    pub edge: u8,
    /// The correction of the base: -1, 0 or 1.
    pub base_step: i8,
    /// The correction of the top: -1, 0 or 1.
    pub top_step: i8,
    /// Whether bit 64 of the top is to be inverted.
    pub flip: bool,
}
