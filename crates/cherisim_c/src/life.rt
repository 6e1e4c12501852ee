//! Machines are made, copied and freed.

ghost use Rattle.std.specs.Prelude.{◌≡◌, ◌≢◌, ◌⊎◌, ◌≤◌, Some, None, IfSome, IfOk, IfErr, [], ◌∷◌, Ok};
ghost use Rattle.image.specs.Grammar.{reading};
ghost use Rattle.image.specs.Reads.{Answers};
ghost use Rattle.image.specs.Image.{Image as ImageRecord, Builds, flat_fault, flat_image, mode_number};
ghost use Rattle.assembler.specs.Left.{IsFaultOf};
ghost use Rattle.assembler.specs.Text.{text_image, text_fault};
ghost use Rattle.hart.specs.Opening.{opening};
ghost use Rattle.cherisim_c.specs.Status.{no_memory, no_machine, image_status};
ghost use Rattle.cherisim_c.specs.Made.{IsImageRefusal, IsTextRefusal};

use crate::bytes::Bytes;
use crate::handle::Handle;
use crate::status::{NO_MACHINE, NO_MEMORY, OK, status_of_image, status_of_text};
use assembler::{AsmCode, AsmFault, assemble};
use image::{Image, ImageFault, read};
use machine::Machine;
use std::alloc::{AllocError, Global};
use word_cap::WordCap;

/// The version of this interface.
#[unsafe(no_mangle)]
pub extern "C" fn cherisim_version() -> u32
    ensures { result ≡ 1 }
{
    1
}

/// The machine of an image, or `None` where there is no memory for it.
fn opened(alloc: Global, image: &Image) -> Option<Box<Machine<WordCap>>>
    ensures { IfSome result (λ machine. machine.value ≡ opening image.now) }
{
    let machine = Machine::new(alloc, image).ok()?;
    Box::new(alloc, machine).ok()
}

/// The image that bytes are.
pub(crate) fn image_of_bytes(alloc: Global, bytes: &[u8]) -> Result<Image, ImageFault>
    ensures value { Answers (reading bytes.now) result }
    ensures read { IfErr result (λ fault. fault ≢ ImageFault.L10) }
{
    read(alloc, &mut Bytes::new(bytes))
}

/// The machine of an image's bytes.
fn machine_of_bytes(alloc: Global, bytes: &[u8]) -> Result<Box<Machine<WordCap>>, ImageFault>
    ensures ok { IfOk result (λ machine. (image : ImageRecord) × (reading bytes.now ≡ Ok image) × (machine.value ≡ opening image)) }
    ensures err { IfErr result (λ fault. IsImageRefusal (reading bytes.now) (image_status fault)) }
    ensures read { IfErr result (λ fault. fault ≢ ImageFault.L10) }
{
    let image = image_of_bytes(alloc, bytes)?;
    match opened(alloc, &image) {
        Some(machine) => Ok(machine),
        None => Err(ImageFault::L11),
    }
}

/// Makes a machine in the opening state of the image that the bytes are. Where it fails, the handle keeps what it held. L10 never comes:
/// bytes in memory can't fail to be read.
#[unsafe(no_mangle)]
pub extern "C" fn cherisim_new(alloc: Global, bytes: &[u8], machine: &mut Handle) -> u32
    ensures ok { result ≡ 0 → (image : ImageRecord) × (reading bytes.now ≡ Ok image) × (machine.new.machine ≡ Some (opening image)) }
    ensures refused { 1 ≤ result → IsImageRefusal (reading bytes.now) result }
    ensures read { result ≢ image_status ImageFault.L10 }
    ensures same { 1 ≤ result → machine.new.machine ≡ machine.old.machine }
{
    match machine_of_bytes(alloc, bytes) {
        Ok(made) => {
            machine.put(made);
            OK
        }
        Err(fault) => status_of_image(fault),
    }
}

/// The image of version 2 with these bytes as its one section.
fn flat(
    alloc: Global,
    bytes: &[u8],
    address: u64,
    entry: u64,
    pages: u32,
    mode: bool,
) -> Result<Image, ImageFault>
    ensures { Builds (flat_fault 2 pages entry (mode_number mode) address bytes.now)
        (flat_image 2 pages entry (mode_number mode) address bytes.now) result }
{
    Image::build_v2(
        alloc,
        pages,
        entry,
        u32::from(mode),
        &[(address, bytes)],
        &[],
    )
}

/// Makes a machine in the opening state of the image of version 2 with these bytes as its one section. Where it fails, the handle keeps
/// what it held.
#[unsafe(no_mangle)]
pub extern "C" fn cherisim_new_flat(
    alloc: Global,
    bytes: &[u8],
    address: u64,
    entry: u64,
    pages: u32,
    mode: bool,
    machine: &mut Handle,
) -> u32
    ensures ok { result ≡ 0 → machine.new.machine ≡ Some (opening (flat_image 2 pages entry (mode_number mode) address bytes.now)) }
    ensures fault { IfSome (flat_fault 2 pages entry (mode_number mode) address bytes.now) (λ fault. result ≡ image_status fault) }
    ensures only { flat_fault 2 pages entry (mode_number mode) address bytes.now ≡ None → (result ≡ 0) ⊎ (result ≡ no_memory) }
    ensures same { 1 ≤ result → machine.new.machine ≡ machine.old.machine }
{
    match flat(alloc, bytes, address, entry, pages, mode) {
        Ok(image) => match opened(alloc, &image) {
            Some(made) => {
                machine.put(made);
                OK
            }
            None => NO_MEMORY,
        },
        Err(fault) => status_of_image(fault),
    }
}

/// The machine of a text.
fn machine_of_text(alloc: Global, text: &[u8]) -> Result<Box<Machine<WordCap>>, AsmFault>
    ensures ok { IfOk result (λ machine. machine.value ≡ opening (text_image text.now)) }
    ensures correct { IfOk result (λ machine. text_fault text.now ≡ None) }
    ensures err { IfErr result (IsFaultOf (text_fault text.now)) }
{
    let assembly = assemble(alloc, text)?;
    match opened(alloc, assembly.image()) {
        Some(machine) => Ok(machine),
        None => Err(AsmFault {
            line: 0,
            code: AsmCode::A10,
        }),
    }
}

/// Makes a machine in the opening state of the image that a text means. Where it fails, the line is written, 0 where there is no
/// memory, and the handle keeps what it held.
#[unsafe(no_mangle)]
pub extern "C" fn cherisim_assemble(
    alloc: Global,
    text: &[u8],
    machine: &mut Handle,
    line: &mut u64,
) -> u32
    ensures ok { result ≡ 0 → machine.new.machine ≡ Some (opening (text_image text.now)) }
    ensures correct { result ≡ 0 → text_fault text.now ≡ None }
    ensures refused { 1 ≤ result → IsTextRefusal (text_fault text.now) line.new result }
    ensures same { 1 ≤ result → machine.new.machine ≡ machine.old.machine }
    ensures no_line { result ≡ 0 → line.new ≡ line.old }
{
    match machine_of_text(alloc, text) {
        Ok(made) => {
            machine.put(made);
            OK
        }
        Err(fault) => {
            *line = fault.line;
            status_of_text(fault.code)
        }
    }
}

/// A machine in the same state.
pub(crate) fn cloned(
    alloc: Global,
    machine: &Machine<WordCap>,
) -> Result<Machine<WordCap>, AllocError>
    ensures { IfOk result (λ copy. copy ≡ machine.now) }
{
    match machine.try_clone(alloc) {
        Ok(copy) => Ok(copy),
        Err(_) => Err(AllocError),
    }
}

/// The same, or `None` where there is no memory for it.
fn copied(alloc: Global, machine: &Machine<WordCap>) -> Option<Box<Machine<WordCap>>>
    ensures { IfSome result (λ copy. copy.value ≡ machine.now) }
{
    match cloned(alloc, machine) {
        Ok(copy) => Box::new(alloc, copy).ok(),
        Err(_) => None,
    }
}

/// Makes a machine in the state of another. Where it fails, the second handle keeps what it held.
#[unsafe(no_mangle)]
pub extern "C" fn cherisim_copy(alloc: Global, from: &mut Handle, to: &mut Handle) -> u32
    ensures from { from.new.machine ≡ from.old.machine }
    ensures closed { from.old.machine ≡ None → result ≡ no_machine }
    ensures ok { result ≡ 0 → to.new.machine ≡ from.old.machine }
    ensures only { IfSome from.old.machine (λ s. (result ≡ 0) ⊎ (result ≡ no_memory)) }
    ensures same { 1 ≤ result → to.new.machine ≡ to.old.machine }
{
    match from.take(alloc) {
        Some(inside) => {
            let copy = copied(alloc, &inside);
            from.put(inside);
            match copy {
                Some(made) => {
                    to.put(made);
                    OK
                }
                None => NO_MEMORY,
            }
        }
        None => NO_MACHINE,
    }
}

/// Frees the machine. A handle without one stays so.
#[unsafe(no_mangle)]
pub extern "C" fn cherisim_free(alloc: Global, machine: &mut Handle)
    ensures { machine.new.machine ≡ None }
{
    *machine = Handle::closed(alloc);
}
