//! What a file is that was taken for an image.
ghost use Rattle.std.specs.List.{list_all};
ghost use Rattle.std.specs.Prelude.{◌≡◌};
ghost use Rattle.hints.specs.Files.{image_hint, is_elf, is_of_text, is_text};
ghost use Rattle.hints.specs.Printable.{IsHint};

/// What is said of an ELF.
const ELF: &str =
    "this is an ELF: make flat bytes of it by objcopy -O binary, and an image by cherisim image (docs/COMPILED.md)";

/// What is said of a text.
const TEXT: &str = "this is a text: a file is assembled where its name ends in .s";

/// Whether bytes begin as an ELF does: with 0x7f and `ELF`.
pub fn is_elf(bytes: &[u8]) -> bool
    ensures { result ≡ is_elf bytes.now }
{
    bytes.starts_with(b"\x7fELF")
}

/// Whether each byte is printable ASCII, a tab, a line feed or a carriage return.
fn are_of_text(bytes: &[u8]) -> bool
    ensures { result ≡ list_all is_of_text bytes.now }
{
    bytes.iter().all(|byte| {
        (*byte >= 32 && *byte < 127) || (*byte == 9 || (*byte == 10 || *byte == 13))
    })
}

/// Whether bytes are a text, of one byte or more.
fn is_text(bytes: &[u8]) -> bool
    ensures { result ≡ is_text bytes.now }
{
    !bytes.is_empty() && are_of_text(bytes)
}

/// What a file is that is no image, by the bytes that it begins with: one line of printable ASCII, without its line feed. Of an ELF it
/// names objcopy and docs/COMPILED.md; of a text it says what files are assembled; and of other bytes, and where there are none, it is
/// empty.
#[tactic(auto, unfolding(crate::specs::Files::image_hint))]
pub fn image_hint(beginning: &[u8]) -> &'static str
    ensures value { result.now ≡ image_hint beginning.now }
    ensures hint { IsHint result.now }
{
    if is_elf(beginning) {
        ELF
    } else if is_text(beginning) {
        TEXT
    } else {
        ""
    }
}
