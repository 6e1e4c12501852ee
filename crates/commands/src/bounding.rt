//! The commands `bounds` and `word`.

ghost use Rattle.std.specs.Prelude.{◌≡◌, IfErr, IfOk, string_bytes, true, false};
ghost use Rattle.std.specs.Io.KnownBytes.{Appends};
ghost use Rattle.bounds_text.specs.WordText.{word_of_halves};
ghost use Rattle.commands.specs.Bounding.{FailsToShow, WritesWord, bounds_answer};
ghost use Rattle.commands.specs.Files.{IsUnsent, IsUnsentOrMemory};

use crate::fault::ProgramFault;
use crate::writing::Writing;
use bounds_objects::{bounds_object, length_object, word_object};
use bounds_text::{Text, bounds_text, length_text, word_text};
use image::write_all;
use std::alloc::{AllocError, Global};
use std::io::Write;
use word_cap::WordCap;

/// Writes a text to `output`, and hands it back.
fn show<'a, O: Write + Drop>(text: &str, output: O) -> Result<O, ProgramFault<'a>>
    ensures ok { IfOk result (λ out. Appends (O.contents output) (O.contents out) text.now) }
    ensures err { IfErr result IsUnsent }
{
    let mut sink = Writing::new(output);
    write_all(&mut sink, text.as_bytes())?;
    Ok(sink.into_inner())
}

/// What is answered of bounds, or of a length alone, in words.
fn bounds_words(base: Option<u64>, length: u64, address: Option<u64>) -> Text
    ensures { result.bytes ≡ bounds_answer false base length address }
{
    match base {
        Some(base) => bounds_text::<WordCap>(base, length, address),
        None => length_text(length),
    }
}

/// The object that answers of bounds, or of a length alone.
fn bounds_line(
    alloc: Global,
    base: Option<u64>,
    length: u64,
    address: Option<u64>,
) -> Result<String, AllocError>
    ensures { IfOk result (λ line. string_bytes line ≡ bounds_answer true base length address) }
{
    match base {
        Some(base) => bounds_object::<WordCap>(alloc, base, length, address),
        None => length_object(alloc, length),
    }
}

/// Writes to `output` the object that answers of bounds, or of a length alone, and hands it back.
fn show_bounds_object<'a, O: Write + Drop>(
    alloc: Global,
    base: Option<u64>,
    length: u64,
    address: Option<u64>,
    output: O,
) -> Result<O, ProgramFault<'a>>
    ensures ok { IfOk result (λ out. Appends (O.contents output) (O.contents out) (bounds_answer true base length address)) }
    ensures err { IfErr result IsUnsentOrMemory }
{
    let line = bounds_line(alloc, base, length, address)?;
    show(&line, output)
}

/// Writes to `output` what setting the bounds of `length` bytes from `base` gives, and where `address` lies if there is one; where no
/// base is named, how an allocator rounds and aligns so many bytes: in words or, with `json`, as the line of an object. Hands the output
/// back.
pub fn show_bounds<'a, O: Write + Drop>(
    alloc: Global,
    base: Option<u64>,
    length: u64,
    address: Option<u64>,
    json: bool,
    output: O,
) -> Result<O, ProgramFault<'a>>
    ensures ok { IfOk result (λ out. Appends (O.contents output) (O.contents out) (bounds_answer json base length address)) }
    ensures err { IfErr result (FailsToShow json) }
{
    if json {
        show_bounds_object(alloc, base, length, address, output)
    } else {
        let words = bounds_words(base, length, address);
        show(words.as_str(), output)
    }
}

/// Writes to `output` what a word means, in words, and hands it back.
fn show_word_text<'a, O: Write + Drop>(
    high: u64,
    low: u64,
    memory: bool,
    output: O,
) -> Result<O, ProgramFault<'a>>
    ensures ok { IfOk result (λ out. WritesWord false (word_of_halves high low memory) (O.contents output) (O.contents out)) }
    ensures err { IfErr result IsUnsent }
{
    let words = word_text::<WordCap>(high, low, memory);
    show(words.as_str(), output)
}

/// Writes to `output` the object that says what a word means, and hands it back.
fn show_word_object<'a, O: Write + Drop>(
    alloc: Global,
    high: u64,
    low: u64,
    memory: bool,
    output: O,
) -> Result<O, ProgramFault<'a>>
    ensures ok { IfOk result (λ out. WritesWord true (word_of_halves high low memory) (O.contents output) (O.contents out)) }
    ensures err { IfErr result IsUnsentOrMemory }
{
    let line = word_object::<WordCap>(alloc, high, low, memory)?;
    show(&line, output)
}

/// Writes to `output` what the word of a capability means whose halves these are, in logical form or as they stand in memory: in words or,
/// with `json`, as the line of an object. Hands the output back.
pub fn show_word<'a, O: Write + Drop>(
    alloc: Global,
    high: u64,
    low: u64,
    memory: bool,
    json: bool,
    output: O,
) -> Result<O, ProgramFault<'a>>
    ensures ok { IfOk result (λ out. WritesWord json (word_of_halves high low memory) (O.contents output) (O.contents out)) }
    ensures err { IfErr result (FailsToShow json) }
{
    if json {
        show_word_object(alloc, high, low, memory, output)
    } else {
        show_word_text(high, low, memory, output)
    }
}
