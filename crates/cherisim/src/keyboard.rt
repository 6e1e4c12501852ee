//! Lines that are typed at a terminal.

use arrayvec::ArrayVec;
use asm_lines::split_word;
use std::cell::Cell;
use std::io::{self, Read, Write};
use std::mem;

/// What asks for a line.
const PROMPT: &[u8] = b"(cherisim) ";

/// The most bytes of a line that are kept, its line feed among them: a longer line is refused.
const MOST_KEPT: usize = 256;

/// The commands that an empty line doesn't repeat, because they come between steps.
const NOT_REPEATED: [&[u8]; 3] = [b"byte", b"stop", b"help"];

/// A reader of commands. At a terminal it asks for each line by a prompt, and gives for an empty one the last that is repeated, if there
/// is one.
#[derive(Drop)]
pub struct Keyboard<'a, R, W> {
    reader: R,
    /// Where a line is asked for; none where nobody types.
    prompts: Option<W>,
    /// Whether the last line was refused, which its reply says.
    refused: &'a Cell<bool>,
    /// What was typed of a line, so far as it is kept.
    typed: ArrayVec<u8, MOST_KEPT>,
    /// The line that an empty one repeats.
    repeated: ArrayVec<u8, MOST_KEPT>,
    /// How many of its bytes were given; all of them where it isn't being repeated.
    given: usize,
    /// Whether the next byte that is typed begins a line.
    is_at_start: bool,
}

/// Whether an empty line repeats this one, unless it was refused: no comment, and a command that is repeated.
fn is_repeated(line: &[u8]) -> bool {
    let Some(words) = line.strip_suffix(b"\n") else {
        return false;
    };
    match split_word(words) {
        Some((name, _)) => !name.starts_with(b"#") && !NOT_REPEATED.contains(&name),
        None => false,
    }
}

impl<'a, R: Read, W: Write> Keyboard<'a, R, W> {
    /// A keyboard at which nothing was typed yet.
    pub fn new(reader: R, prompts: Option<W>, refused: &'a Cell<bool>) -> Self {
        Keyboard {
            reader,
            prompts,
            refused,
            typed: ArrayVec::new(),
            repeated: ArrayVec::new(),
            given: 0,
            is_at_start: true,
        }
    }

    /// Shows a text, if it can be shown.
    fn show(&mut self, text: &[u8]) {
        if let Some(writer) = &mut self.prompts
            && writer.write_all(text).is_ok()
        {
            let _ = writer.flush();
        }
    }

    /// Asks for a line, once the one before is answered.
    fn begin_line(&mut self) {
        if !self.refused.get() && is_repeated(self.typed.as_slice()) {
            mem::swap(&mut self.typed, &mut self.repeated);
            self.given = self.repeated.len();
        }
        self.typed.clear();
        self.refused.set(false);
        self.is_at_start = false;
        self.show(PROMPT);
    }

    /// The next byte of the line that is being repeated, if one is.
    fn next_repeated(&mut self) -> Option<u8> {
        let byte = self.repeated.get(self.given).copied()?;
        self.given += 1;
        Some(byte)
    }

    /// The next byte that is typed, or none at the end.
    fn next_typed(&mut self) -> io::Result<Option<u8>> {
        let mut one = [0];
        if self.reader.read(&mut one)? == 0 {
            // What comes next, as a shell's prompt, stands on a line of its own.
            self.show(b"\n");
            return Ok(None);
        }
        let [byte] = one;
        if !self.typed.is_full() {
            self.typed.push(byte);
        }
        Ok(Some(byte))
    }

    /// The next byte of the commands, or none at the end.
    fn next_byte(&mut self) -> io::Result<Option<u8>> {
        if let Some(byte) = self.next_repeated() {
            return Ok(Some(byte));
        }
        if self.is_at_start {
            self.begin_line();
        }
        let next = self.next_typed()?;
        if next == Some(b'\n') {
            self.is_at_start = true;
            if self.typed.len() == 1 {
                self.given = 0;
                return Ok(self.next_repeated().or(next));
            }
        }
        Ok(next)
    }
}

impl<R: Read, W: Write> Read for Keyboard<'_, R, W> {
    fn read(&mut self, buffer: &mut [u8]) -> io::Result<usize> {
        if self.prompts.is_none() {
            return self.reader.read(buffer);
        }
        let Some(first) = buffer.first_mut() else {
            return Ok(0);
        };
        match self.next_byte()? {
            Some(byte) => {
                *first = byte;
                Ok(1)
            }
            None => Ok(0),
        }
    }
}
