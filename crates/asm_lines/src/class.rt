//! Kinds of bytes.
ghost use Rattle.std.specs.Prelude.{◌≡◌, ◌≤◌, length};
ghost use Rattle.std.specs.List.{prefix_len};
ghost use Rattle.std.specs.Char.{digit_value};
ghost use Rattle.asm_lines.specs.Text.{is_blank, is_foreign, begins_name, continues_name};
ghost use Rattle.asm_lines.specs.Class.{is_in};

/// A kind of byte.
#[derive(Clone, Copy)]
pub enum Class {
    /// Space, tab and carriage return.
    Blank,
    /// What is not white space.
    Solid,
    /// What is part of a text: no control byte but tab, line feed and carriage return, and nothing from 127 on.
    Plain,
    /// What a name goes on with: a letter, a digit, `_` or `.`.
    Name,
    /// What is neither a plus nor a minus.
    Unsigned,
    /// Any byte but this one.
    Not(u8),
    /// A digit in this radix.
    Digit(u32),
    /// A byte below 128.
    Ascii,
}

impl Class {
    fn has(self, byte: u8) -> bool
        ensures { result ≡ is_in self byte }
    {
        match self {
            Class::Blank => is_blank(byte),
            Class::Solid => !is_blank(byte),
            Class::Plain => !is_foreign(byte),
            Class::Name => continues_name(byte),
            Class::Unsigned => !(byte == b'+' || byte == b'-'),
            Class::Not(other) => byte != other,
            Class::Digit(radix) => digit_value(byte) < radix,
            Class::Ascii => byte < 128,
        }
    }
}

/// How many bytes of a kind a text begins with.
pub fn run_length(text: &[u8], class: Class) -> usize
    ensures value { result ≡ prefix_len (is_in class) text.now }
    ensures bound { result ≤ length text.now }
{
    let mut count = 0;
    while count < text.len() && class.has(text[count]) {
        count += 1;
    }
    count
}

/// The value of a digit or a letter, or 36.
pub fn digit_value(byte: u8) -> u32
    ensures { result ≡ digit_value byte }
{
    match byte {
        b'0'..=b'9' => u32::from(byte - b'0'),
        b'A'..=b'Z' => u32::from(byte - b'A') + 10,
        b'a'..=b'z' => u32::from(byte - b'a') + 10,
        _ => 36,
    }
}

pub(crate) fn is_blank(byte: u8) -> bool
    ensures { result ≡ is_blank byte }
{
    byte == b' ' || byte == b'\t' || byte == b'\r'
}

fn is_foreign(byte: u8) -> bool
    ensures { result ≡ is_foreign byte }
{
    byte >= 127 || byte < 32 && !(byte == b'\t' || byte == b'\n' || byte == b'\r')
}

pub(crate) fn begins_name(byte: u8) -> bool
    ensures { result ≡ begins_name byte }
{
    byte.is_ascii_alphabetic() || byte == b'_' || byte == b'.'
}

fn continues_name(byte: u8) -> bool
    ensures { result ≡ continues_name byte }
{
    begins_name(byte) || byte.is_ascii_digit()
}
