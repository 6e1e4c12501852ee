//! What is appended to: a string, bytes, or a text of so many bytes at most.

ghost use Rattle.std.specs.Prelude.{◌≡◌, ℕ, ◌+◌, ◌-◌, ◌<◌, ◌≤◌, List, ◌++◌, length, IsTrue, OnOk, OnErr};
ghost use Rattle.std.specs.Prelude.{string_bytes, string_len, string_capacity, vec_len, vec_capacity};
ghost use Rattle.arrayvec.specs.ArrayString.{array_string_len};
ghost use Rattle.texts.specs.Piece.{piece_text, piece_width, is_narrow, text_with, text_of, width_of, are_narrow};

use crate::hex::{hex_digits, short_digits};
use crate::piece::Piece;
use arrayvec::ArrayString;
use itoa::Buffer;
use std::alloc::AllocError;

/// Where texts are appended.
pub trait TextSink {
    /// The bytes that stand there.
    ghost bytes: { Self → List ℕ };

    /// How many they are.
    ghost len: { Self → ℕ };

    /// How many can stand there before more memory is taken.
    ghost capacity: { Self → ℕ };

    /// Appends a text.
    ///
    /// # Errors
    ///
    /// Out of memory.
    fn append_str(&mut self, text: &str) -> Result<(), AllocError>
        ensures bytes { OnOk result (bytes self.new ≡ bytes self.old ++ text.now) }
        ensures len { OnOk result (len self.new ≡ len self.old + length text.now) }
        ensures capacity { capacity self.old ≤ capacity self.new }
        ensures full { OnErr result (capacity self.old < len self.old + length text.now) };
}

impl TextSink for String {
    ghost bytes = { λ text. string_bytes text };

    ghost len = { λ text. string_len text };

    ghost capacity = { λ text. string_capacity text };

    fn append_str(&mut self, text: &str) -> Result<(), AllocError> {
        self.push_str(text)
    }
}

impl TextSink for Vec<u8> {
    ghost bytes = { λ text. text.items };

    ghost len = { λ text. vec_len text };

    ghost capacity = { λ text. vec_capacity text };

    fn append_str(&mut self, text: &str) -> Result<(), AllocError> {
        self.extend_from_slice(text.as_bytes())
    }
}

impl<const CAP: usize> TextSink for ArrayString<CAP> {
    ghost bytes = { λ text. text.bytes };

    ghost len = { λ text. array_string_len text };

    ghost capacity = { λ text. CAP };

    fn append_str(&mut self, text: &str) -> Result<(), AllocError> {
        if text.len() > self.remaining_capacity() {
            return Err(AllocError);
        }
        self.push_str(text);
        Ok(())
    }
}

/// Appends a piece to a text.
#[tactic(auto, using(crate::specs::HexLaws::length_of_hex))]
fn append_piece<T: TextSink>(text: &mut T, piece: Piece) -> Result<(), AllocError>
    requires { IsTrue (is_narrow piece) }
    ensures bytes { OnOk result (T.bytes text.new ≡ T.bytes text.old ++ piece_text piece.entry) }
    ensures len { OnOk result (T.len text.new ≤ T.len text.old + piece_width piece.entry) }
    ensures capacity { T.capacity text.old ≤ T.capacity text.new }
    ensures full { OnErr result (T.capacity text.old < T.len text.old + piece_width piece.entry) }
{
    match piece {
        Piece::Text(piece) => text.append_str(piece),
        Piece::Address(n) => text.append_str(hex_digits(u128::from(n), 16).as_str()),
        Piece::Hexadecimal(width, n) => text.append_str(hex_digits(n, width).as_str()),
        Piece::ShortHexadecimal(n) => {
            text.append_str("0x")?;
            text.append_str(short_digits(n).as_str())
        }
        Piece::Decimal(n) => text.append_str(Buffer::new().format(n)),
        Piece::SignedDecimal(n) => text.append_str(Buffer::new().format(n)),
        Piece::WideDecimal(n) => text.append_str(Buffer::new().format(n)),
        Piece::WideSignedDecimal(n) => text.append_str(Buffer::new().format(n)),
    }
}

/// Appends pieces to a text, one after the other.
fn append_each<T: TextSink>(text: &mut T, pieces: &[Piece]) -> Result<(), AllocError>
    requires { IsTrue (are_narrow pieces.now) }
    ensures bytes { OnOk result (T.bytes text.new ≡ text_with (T.bytes text.old) pieces.now) }
    ensures len { OnOk result (T.len text.new ≤ T.len text.old + width_of pieces.now) }
    ensures capacity { T.capacity text.old ≤ T.capacity text.new }
    ensures full { OnErr result (T.capacity text.old < T.len text.old + width_of pieces.now) }
{
    match pieces {
        [] => Ok(()),
        [first, rest @ ..] => {
            append_piece(text, *first)?;
            append_each(text, rest)
        }
    }
}

/// Appends pieces to a text.
///
/// # Errors
///
/// Out of memory.
#[tactic(auto, using(crate::proofs::Joined::text_joined))]
pub fn append<T: TextSink>(text: &mut T, pieces: &[Piece]) -> Result<(), AllocError>
    requires { IsTrue (are_narrow pieces.now) }
    ensures bytes { OnOk result (T.bytes text.new ≡ T.bytes text.old ++ text_of pieces.now) }
    ensures len { OnOk result (T.len text.new ≤ T.len text.old + width_of pieces.now) }
    ensures capacity { T.capacity text.old ≤ T.capacity text.new }
    ensures full { OnErr result (T.capacity text.old < T.len text.old + width_of pieces.now) }
{
    append_each(text, pieces)
}

/// Appends pieces to a text that has room for them.
pub fn fill<const CAP: usize>(text: &mut ArrayString<CAP>, pieces: &[Piece])
    requires narrow { IsTrue (are_narrow pieces.now) }
    requires room { array_string_len text.old + width_of pieces.now ≤ CAP }
    ensures bytes { text.new.bytes ≡ text.old.bytes ++ text_of pieces.now }
    ensures within { array_string_len text.new ≤ array_string_len text.old + width_of pieces.now }
{
    let _ = append(text, pieces);
}

/// The text of pieces.
pub fn text<const CAP: usize>(pieces: &[Piece]) -> ArrayString<CAP>
    requires narrow { IsTrue (are_narrow pieces.now) }
    requires room { width_of pieces.now ≤ CAP }
    ensures bytes { result.bytes ≡ text_of pieces.now }
    ensures within { array_string_len result ≤ width_of pieces.now }
{
    let mut text = ArrayString::new();
    fill(&mut text, pieces);
    text
}
