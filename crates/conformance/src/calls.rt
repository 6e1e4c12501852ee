//! The calls that make images and machines, and runs. Where a call is refused, what it leaves is what it promises, and the call made again
//! is done.

use crate::sameness::are_same;
use crate::sessions::{command, converse};
use crate::tried::{Done, Wrong, made, tell};
use assembler::{AsmCode, AsmFault, Assembly, assemble};
use base::ram;
use case_files::Paper;
use debugger::Session;
use image::{FromRead, Image, ImageFault};
use machine::{Event, Machine, MachineFault};
use std::io;
use word_cap::WordCap;

/// The file of the image that sends `A` and halts with 0: 32 bytes of header, 16 of its section, five instructions.
const FILE: &[u8; 68] = b"CHERIIMG\x01\0\0\0\x01\0\0\0\0\0\0\x80\0\0\0\0\x01\0\0\0\0\0\0\0\
    \0\0\0\x80\0\0\0\0\x14\0\0\0\0\0\0\0\
    \xb7\x05\0\x10\x13\x05\x10\x04\x23\x80\xa5\0\xb7\x05\x10\0\x23\xb0\x05\0";

/// The five instructions.
const FIRST: &[u8; 20] =
    b"\xb7\x05\0\x10\x13\x05\x10\x04\x23\x80\xa5\0\xb7\x05\x10\0\x23\xb0\x05\0";

/// The same instructions, after a section that is written last, with labels.
const TEXT: &[u8] =
    b".org 0x80000100\nlast: .ascii \"last\"\n.org 0x80000000\nfirst: lui a1, 0x10000\naddi a0, zero, 65\n\
    sb a0, 0(a1)\nlui a1, 0x100\nend: sd zero, 0(a1)\n.org 0x80000080\n.byte 1, 2, 3";

/// The file of that text's image.
const ASSEMBLED: &[u8; 107] = b"CHERIIMG\x01\0\0\0\x01\0\0\0\0\0\0\x80\0\0\0\0\x03\0\0\0\0\0\0\0\
    \0\0\0\x80\0\0\0\0\x14\0\0\0\0\0\0\0\
    \xb7\x05\0\x10\x13\x05\x10\x04\x23\x80\xa5\0\xb7\x05\x10\0\x23\xb0\x05\0\
    \x80\0\0\x80\0\0\0\0\x03\0\0\0\0\0\0\0\x01\x02\x03\
    \0\x01\0\x80\0\0\0\0\x04\0\0\0\0\0\0\0last";

const STEPS: [Event; 60] = [Event::Step; 60];

/// Whether an image's file is this.
fn is_spelt(image: &Image, file: &[u8]) -> bool {
    let mut paper = Paper::new();
    image::write(image, &mut paper).is_ok() && paper.written() == file
}

fn is_good_image(image: &Image) -> bool {
    is_spelt(image, FILE)
}

fn is_good_assembly(assembly: &Assembly) -> bool {
    is_spelt(assembly.image(), ASSEMBLED) && assembly.symbols().len() == 3
}

fn is_running(machine: &Machine<WordCap>) -> bool {
    machine.halted().is_none()
}

/// `Image::build`.
fn build(rt: &HostRuntime) -> Result<Image, Wrong> {
    let section: (u64, &[u8]) = (ram::BASE, FIRST);
    made!(rt; "build", ImageFault::L11 => "L11", is_good_image;
        Image::build(rt.alloc(), 1, ram::BASE, 0, &[section]))
}

/// `image::read`.
fn read(rt: &HostRuntime) -> Result<Image, Wrong> {
    made!(rt; "read", ImageFault::L11 => "L11", is_good_image;
        image::read(rt.alloc(), &mut FromRead::new(&FILE[..])))
}

/// `assemble`.
fn assembled(rt: &HostRuntime) -> Result<Assembly, Wrong> {
    made!(rt; "assemble", AsmFault { line: 0, code: AsmCode::A10 } => "A10", is_good_assembly;
        assemble(rt.alloc(), TEXT))
}

/// A machine of the image, in its opening state: `Machine::new`.
fn fresh(rt: &HostRuntime, image: &Image) -> Result<Machine<WordCap>, Wrong> {
    made!(rt; "new", MachineFault::M2 => "M2", is_running;
        Machine::new(rt.alloc(), image))
}

/// `run` of so many steps, at most 60. The other machine, which is in the same state before, meets the steps one by one.
fn run(
    machine: &mut Machine<WordCap>,
    other: &mut Machine<WordCap>,
    count: usize,
    sent: &mut Vec<u8>,
    before: &[u8],
) -> Done {
    let events = STEPS.get(..count).unwrap_or(&STEPS);
    let mut is_refused = false;
    if let Err(fault) = machine.run(events, sent) {
        if fault != MachineFault::M5 || !are_same(machine, other) || sent.as_slice() != before {
            return Err(Wrong("a refused run changes something"));
        }
        if machine.run(events, sent).is_err() {
            return Err(Wrong("a run is refused twice"));
        }
        is_refused = true;
    }
    for event in events {
        other.event(*event);
    }
    if are_same(machine, other) && sent.as_slice() == b"A".as_slice() {
        Ok(is_refused)
    } else {
        Err(Wrong("a run ends in another state, or sends other bytes"))
    }
}

/// A machine's runs: one sends `A`, and one has more events than the list has room for.
fn runs(rt: &HostRuntime, image: &Image) -> Result<(), Wrong> {
    let mut machine = fresh(rt, image)?;
    let mut other = fresh(rt, image)?;
    let mut sent = Vec::new(rt.alloc());
    let done = run(&mut machine, &mut other, 3, &mut sent, b"");
    tell(rt, "run", "M5", done)?;
    let done = run(&mut machine, &mut other, 60, &mut sent, b"A");
    tell(rt, "run", "M5", done)
}

/// A session's commands.
fn commands(rt: &HostRuntime, image: &Image) -> Result<(), Wrong> {
    let machine = fresh(rt, image)?;
    let mut other = fresh(rt, image)?;
    let mut session = Session::new(rt.alloc(), machine);
    tell(rt, "command", "B4", command(&mut session, &mut other))
}

/// A conversation.
fn conversation(rt: &HostRuntime, image: &Image) -> Result<(), Wrong> {
    let machine = fresh(rt, image)?;
    let mut other = fresh(rt, image)?;
    let mut session = Session::new(rt.alloc(), machine);
    tell(rt, "talk", "Memory", converse(&mut session, &mut other))
}

/// Makes the calls in order, and tells of each.
fn make(rt: &HostRuntime) -> Result<(), Wrong> {
    let image = build(rt)?;
    read(rt)?;
    assembled(rt)?;
    runs(rt, &image)?;
    commands(rt, &image)?;
    conversation(rt, &image)
}

/// Makes the calls, tells of one that does not hold its promise, and says whether all do.
pub(crate) fn try_calls(rt: &HostRuntime) -> io::Result<bool> {
    match make(rt) {
        Ok(()) => Ok(true),
        Err(Wrong(what)) => {
            println!(rt; "wrong: {what}")?;
            Ok(false)
        }
    }
}
