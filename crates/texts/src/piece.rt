//! What lines of text are made of.

/// A piece of a text.
#[derive(Clone, Copy)]
pub enum Piece<'a> {
    /// A text as it stands.
    Text(&'a str),
    /// An address in 16 digits of lower-case hexadecimal.
    Address(u64),
    /// The lowest digits of a number in lower-case hexadecimal, at most 17, with leading zeros: how many, and the number.
    Hexadecimal(usize, u128),
    /// `0x` and a number in lower-case hexadecimal, without leading zeros.
    ShortHexadecimal(u64),
    /// A number in decimal, of 20 digits at most.
    Decimal(u64),
    /// A number in decimal, with its sign where it is negative, of 20 bytes at most.
    SignedDecimal(i64),
    /// A number in decimal, of 40 bytes at most.
    WideDecimal(u128),
    /// A number in decimal, with its sign where it is negative, of 40 bytes at most.
    WideSignedDecimal(i128),
}

/// Pieces, one after the other, with a literal for a text that stands as it is: `pieces!["at " Address(address) "\n"]`. So a line of a
/// text can be a line of the code.
#[macro_export]
macro_rules! pieces {
    (@ [$($done:tt)*]) => { [$($done)*] };
    (@ [$($done:tt)*] $text:literal $($rest:tt)*) => { $crate::pieces!(@ [$($done)* $crate::Piece::Text($text),] $($rest)*) };
    (@ [$($done:tt)*] $kind:ident $value:tt $($rest:tt)*) => { $crate::pieces!(@ [$($done)* $crate::Piece::$kind $value,] $($rest)*) };
    ($($piece:tt)*) => { $crate::pieces!(@ [] $($piece)*) };
}
