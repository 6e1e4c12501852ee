//! Replies that are shown on a terminal.

use std::alloc::Global;
use std::cell::Cell;
use std::fmt;
use std::io::{self, Write};

/// A word of a reply's line.
#[derive(Clone, Copy)]
enum Part {
    /// The first.
    First,
    /// After `events`: how many there were.
    Count,
    /// After that, `out`.
    Out,
    /// After that, the bytes that were sent.
    Sent,
    /// Any other.
    Other,
}

/// A writer of replies. On a terminal it shows the bytes that were sent as a text too, after the hexadecimal.
#[derive(Drop)]
pub struct Screen<'a, W> {
    alloc: Global,
    writer: W,
    /// Whether replies of a session go to a terminal; all else is written as it is.
    is_terminal: bool,
    /// Whether the last line was refused, which whoever reads the lines is told.
    refused: &'a Cell<bool>,
    /// The word that is being written.
    part: Part,
    /// What was written of it, unless it is any other.
    word: Vec<u8>,
}

/// Bytes as a text in quotation marks, with escapes for what isn't printable ASCII.
#[derive(Clone, Copy)]
struct Quoted<'a>(&'a [u8]);

impl fmt::Display for Quoted<'_> {
    fn fmt<F: fmt::Write>(&self, f: &mut fmt::Formatter<F>) -> fmt::Result {
        f.write_str("\"")?;
        for byte in self.0 {
            match *byte {
                b'\n' => f.write_str("\\n")?,
                b'\t' => f.write_str("\\t")?,
                b'"' => f.write_str("\\\"")?,
                b'\\' => f.write_str("\\\\")?,
                byte @ b' '..=b'~' => f.write_char(char::from(byte))?,
                byte => write!(f, "\\x{byte:02x}")?,
            }
        }
        f.write_str("\"")
    }
}

impl<'a, W: Write> Screen<'a, W> {
    /// A screen on which nothing was written yet.
    pub fn new(alloc: Global, writer: W, is_terminal: bool, refused: &'a Cell<bool>) -> Self {
        Screen {
            alloc,
            writer,
            is_terminal,
            refused,
            part: Part::First,
            word: Vec::new(alloc),
        }
    }

    /// Begins a word.
    fn begin(&mut self, part: Part) {
        self.part = part;
        self.word.clear();
    }

    /// Ends a word, and begins the next one.
    fn end_word(&mut self) {
        let next = match (self.part, self.word.as_slice()) {
            (Part::First, b"events") => Part::Count,
            (Part::First, b"fault") => {
                self.refused.set(true);
                Part::Other
            }
            (Part::Count, _) => Part::Out,
            (Part::Out, b"out") => Part::Sent,
            _ => Part::Other,
        };
        self.begin(next);
    }

    /// Follows what is written by a byte.
    fn follow(&mut self, byte: u8) {
        match byte {
            b'\n' => self.begin(Part::First),
            b' ' => self.end_word(),
            _ => {
                // Without memory for a word its line has no text.
                if !matches!(self.part, Part::Other) && self.word.push(byte).is_err() {
                    self.begin(Part::Other);
                }
            }
        }
    }

    /// Writes the bytes of which a word is the hexadecimal as a text, and a space; nothing of another word, as `-`, or without memory.
    fn write_text(&mut self) -> io::Result<()> {
        if let Ok(bytes) = hex::decode(self.alloc, self.word.as_slice())
            && let Ok(text) = format!(in self.alloc; "{} ", Quoted(bytes.as_slice()))
        {
            return self.writer.write_all(text.as_bytes());
        }
        Ok(())
    }
}

impl<W: Write> Write for Screen<'_, W> {
    fn write(&mut self, bytes: &[u8]) -> io::Result<usize> {
        if !self.is_terminal {
            return self.writer.write(bytes);
        }
        for (index, byte) in bytes.iter().enumerate() {
            if *byte == b' ' && matches!(self.part, Part::Sent) {
                let (sent, _) = bytes.split_at(index + 1);
                self.writer.write_all(sent)?;
                self.write_text()?;
                self.begin(Part::Other);
                return Ok(sent.len());
            }
            self.follow(*byte);
        }
        self.writer.write_all(bytes)?;
        Ok(bytes.len())
    }

    fn flush(&mut self) -> io::Result<()> {
        self.writer.flush()
    }
}
