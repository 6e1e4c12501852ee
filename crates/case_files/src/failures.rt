//! Images that are read from devices whose calls fail, and written to such devices.

use crate::fault::CaseError;
use crate::hexadecimal::{bytes, bytes_text};
use crate::over_memory::{Narrow, Slow};
use crate::over_std::{Failure, Reader, Writer};
use crate::words::Words;
use image::{DeviceFailed, FromRead, ImageFault, Sink, Source, ToWrite, read, write, write_all};
use std::alloc::{AllocError, Global};
use std::io::ErrorKind;

/// Puts an answer of a call of a device: `failed` or a count; and after it how often a call has failed.
fn put_call(
    told: &mut String,
    answered: Result<usize, DeviceFailed>,
    failures: u64,
) -> Result<(), AllocError> {
    match answered {
        Ok(count) => write!(told, "{count:x} {failures:x}"),
        Err(DeviceFailed) => write!(told, "failed {failures:x}"),
    }
}

fn put_bytes(alloc: Global, told: &mut String, bytes: &[u8]) -> Result<(), CaseError> {
    let text = bytes_text(alloc, bytes)?;
    Ok(told.push_str(&text)?)
}

/// Puts how often a call failed, and `ok` or the fault.
fn put_came(told: &mut String, failures: u64, came: Option<ImageFault>) -> Result<(), AllocError> {
    match came {
        None => write!(told, "{failures:x} ok"),
        Some(fault) => write!(told, "{failures:x} {fault:?}"),
    }
}

/// What reading a file comes to.
fn read_slowly(alloc: Global, told: &mut String, words: &mut Words) -> Result<(), CaseError> {
    let fails_at = words.hex();
    let file = bytes(alloc, words.word())?;
    let mut source = Slow::new(&file, fails_at);
    let came = read(alloc, &mut source).err();
    Ok(put_came(told, source.failures(), came)?)
}

/// What writing a file's image comes to, and the bytes that the device holds.
fn write_narrowly(alloc: Global, told: &mut String, words: &mut Words) -> Result<(), CaseError> {
    let fails_at = words.hex();
    let file = bytes(alloc, words.word())?;
    let mut held = Vec::new(alloc);
    match read(alloc, &mut FromRead::new(file.as_slice())) {
        Ok(image) => {
            let mut sink = Narrow::new(&mut held, 1, fails_at);
            let came = write(&image, &mut sink).err();
            put_came(told, sink.failures(), came)?;
        }
        Err(_) => return Err(CaseError::Unreadable),
    }
    told.push(' ')?;
    put_bytes(alloc, told, &held)
}

/// What reading so many bytes from others gives, and the bytes that are read into.
fn read_part(alloc: Global, told: &mut String, words: &mut Words) -> Result<(), CaseError> {
    let mut buffer = vec![in alloc; 0; usize::from(words.small())]?;
    let bytes = bytes(alloc, words.word())?;
    let mut source = FromRead::new(bytes.as_slice());
    let answered = Source::read(&mut source, &mut buffer);
    put_call(told, answered, source.failures())?;
    told.push(' ')?;
    put_bytes(alloc, told, &buffer)
}

/// More calls than these fail in no case.
const MOST_FAILURES: u64 = 1;

/// What each byte is told as that is read from a reader of std, which is interrupted at a call, until the end comes.
fn read_interrupted(alloc: Global, told: &mut String, words: &mut Words) -> Result<(), CaseError> {
    let call = words.call();
    let bytes = bytes(alloc, words.word())?;
    let mut source = FromRead::new(Reader::new(&bytes, call, ErrorKind::Interrupted));
    for _ in 0..bytes.len().saturating_add(2) {
        if source.failures() > MOST_FAILURES {
            return Err(CaseError::Unreadable);
        }
        let mut place = [0];
        let answered = Source::read(&mut source, &mut place);
        put_call(told, answered, source.failures())?;
        told.push(' ')?;
        put_bytes(alloc, told, &place)?;
        told.push(';')?;
    }
    Ok(())
}

/// What is told as bytes are written to a writer of std, all in one or a byte a call.
fn write_to(
    told: &mut String,
    writer: Writer,
    bytes: &[u8],
    in_one: bool,
) -> Result<(), CaseError> {
    let mut sink = ToWrite::new(writer);
    if in_one {
        let answered = write_all(&mut sink, bytes).map(|()| bytes.len());
        return Ok(put_call(told, answered, sink.failures())?);
    }
    for byte in bytes {
        if sink.failures() > MOST_FAILURES {
            return Err(CaseError::Unreadable);
        }
        let answered = Sink::write(&mut sink, &[*byte]);
        put_call(told, answered, sink.failures())?;
        told.push(';')?;
    }
    Ok(())
}

/// What is told as bytes are written to a writer of std, of which one call fails so, and what it holds then.
fn write_broken(
    alloc: Global,
    told: &mut String,
    words: &mut Words,
    in_one: bool,
) -> Result<(), CaseError> {
    let call = words.call();
    let failure = match words.word() {
        "interrupted" => Failure::Error(ErrorKind::Interrupted),
        "nobyte" => Failure::NoByte,
        _ => return Err(CaseError::Unreadable),
    };
    let bytes = bytes(alloc, words.word())?;
    let mut held = Vec::new(alloc);
    let writer = Writer::new(&mut held, call, failure);
    write_to(told, writer, &bytes, in_one)?;
    told.push(' ')?;
    put_bytes(alloc, told, &held)
}

/// `read CALL FILE` or `write CALL FILE`: the call of that number fails, from 0. Or a call of devices of std: `interrupted CALL BYTES`, a
/// byte a call; `broken CALL FAILURE BYTES`, a byte a call, and `brokenall`, all in one, with `interrupted` or `nobyte` as the failure;
/// and `part SIZE BYTES`, which reads into so many bytes.
pub(crate) fn tell(alloc: Global, told: &mut String, words: &mut Words) -> Result<(), CaseError> {
    match words.word() {
        "read" => read_slowly(alloc, told, words),
        "write" => write_narrowly(alloc, told, words),
        "interrupted" => read_interrupted(alloc, told, words),
        "broken" => write_broken(alloc, told, words, false),
        "brokenall" => write_broken(alloc, told, words, true),
        "part" => read_part(alloc, told, words),
        _ => Err(CaseError::Unreadable),
    }
}
