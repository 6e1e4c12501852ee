//! Comments.
ghost use Rattle.std.specs.Prelude.{◌≡◌, ◌≤◌, length};
ghost use Rattle.asm_lines.specs.Text.{uncommented, quoting_after, begins_comment};

/// A line up to its comment.
pub(crate) fn uncommented(line: &[u8]) -> &[u8]
    ensures value { result.now ≡ uncommented line.now }
    ensures bound { length result.now ≤ length line.now }
{
    let mut quoting = Quoting::Outside;
    let mut end = 0;
    while end < line.len() && !quoting.begins_comment(line[end]) {
        quoting = quoting.after(line[end]);
        end += 1;
    }
    &line[..end]
}

/// Where a reader of a line stands.
#[derive(Clone, Copy)]
pub(crate) enum Quoting {
    /// Outside quotes.
    Outside,
    /// Inside quotes.
    Inside,
    /// Inside quotes and after a backslash.
    Escaped,
}

impl Quoting {
    fn after(self, byte: u8) -> Quoting
        ensures { result ≡ quoting_after byte self }
    {
        match self {
            Quoting::Outside if byte == b'"' => Quoting::Inside,
            Quoting::Inside if byte == b'"' => Quoting::Outside,
            Quoting::Inside if byte == b'\\' => Quoting::Escaped,
            Quoting::Escaped => Quoting::Inside,
            _ => self,
        }
    }

    fn begins_comment(self, byte: u8) -> bool
        ensures { result ≡ begins_comment byte self }
    {
        matches!(self, Quoting::Outside) && byte == b'#'
    }
}
