//! Texts between quotes.
ghost use Rattle.std.specs.Prelude.{◌≡◌, ◌<◌, IsTrue, false, length};
ghost use Rattle.asm_lines.specs.Statement.{is_escape, closes_from};

/// Whether a byte after a backslash is one of the escapes `\n`, `\0`, `\\` and `\"`.
fn is_escape(byte: u8) -> bool
    ensures { result ≡ is_escape byte }
{
    byte == b'n' || byte == b'0' || byte == b'\\' || byte == b'"'
}

/// Whether what follows an opening quote is a text and its closing quote, with no other escape than there is.
pub(crate) fn closes(text: &[u8]) -> bool
    ensures value { result ≡ closes_from false text.now }
    ensures some { IsTrue result → 0 < length text.now }
{
    let mut escaped = false;
    let mut place = 0;
    while place < text.len() {
        let byte = text[place];
        place += 1;
        if escaped {
            if !is_escape(byte) {
                return false;
            }
            escaped = false;
        } else if byte == b'"' {
            return place == text.len();
        } else {
            escaped = byte == b'\\';
        }
    }
    false
}
