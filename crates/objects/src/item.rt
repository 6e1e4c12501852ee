//! What an object says.

/// An item of an object: a name and its value, or where an object inside begins or ends.
///
/// Numbers that may pass `2^53` are strings, `0x` and hexadecimal digits: so no reader rounds them.
#[derive(Clone, Copy)]
pub enum Item<'a> {
    /// Nothing is known.
    Null(&'a str),
    /// Whether it is so.
    Truth(&'a str, bool),
    /// A number in decimal.
    Number(&'a str, u64),
    /// A number of 64 bits, as an address: 16 digits.
    Address(&'a str, u64),
    /// The lowest 64 bits of a number, as the lower half of a word: 16 digits.
    Half(&'a str, u128),
    /// A number of up to 68 bits, as the top of bounds: 17 digits.
    Wide(&'a str, u128),
    /// A text.
    Text(&'a str, &'a str),
    /// An object inside begins.
    Begin(&'a str),
    /// The object inside that began last ends.
    End,
}
