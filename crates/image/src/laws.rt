//! Laws of the image format, over every list of bytes and every image.

ghost use Rattle.std.specs.Prelude.{◌≡◌, ℕ, List, [], ◌∷◌, ◌++◌, Ok};
ghost use Rattle.image.specs.Image.{Image, IsImage};
ghost use Rattle.image.specs.Grammar.{AreBytes, IsSpelling, header_bytes, span_bytes, capability_bytes, spelling, reading};

/// An image has one spelling, and no spelling begins another.
pub fn one_spelling()
    ensures { (i j : Image) (rest : List ℕ) → IsImage i → IsImage j → spelling i ++ rest ≡ spelling j → (i ≡ j) × (rest ≡ []) }
{}

/// Bytes are read as an image exactly where they are its spelling.
pub fn read_back()
    ensures read { (bytes : List ℕ) (image : Image) → IsSpelling bytes image → reading bytes ≡ Ok image }
    ensures spelt { (bytes : List ℕ) (image : Image) → AreBytes bytes → reading bytes ≡ Ok image → IsSpelling bytes image }
{}

/// How the parts of a file are spelt, on worked rows: a header of version 2 with 3 pages, entry 0x80000100, 4 sections and capability mode;
/// a section of 0x20 bytes at 0x80000200; and an entry that puts the capability for 0x1000 bytes from 0x80002000 on into the granule
/// 0x80000300, with Global, Load and Store, in capability mode.
pub fn worked_spellings()
    ensures header { header_bytes 2 3 0x80000100 4 1 ≡ 67 ∷ 72 ∷ 69 ∷ 82 ∷ 73 ∷ 73 ∷ 77 ∷ 71 ∷ 2 ∷ 0 ∷ 0 ∷ 0 ∷ 3 ∷ 0 ∷ 0 ∷ 0
        ∷ 0 ∷ 1 ∷ 0 ∷ 128 ∷ 0 ∷ 0 ∷ 0 ∷ 0 ∷ 4 ∷ 0 ∷ 0 ∷ 0 ∷ 1 ∷ 0 ∷ 0 ∷ 0 ∷ [] }
    ensures section { span_bytes 0x80000200 0x20 ≡ 0 ∷ 2 ∷ 0 ∷ 128 ∷ 0 ∷ 0 ∷ 0 ∷ 0 ∷ 32 ∷ 0 ∷ 0 ∷ 0 ∷ 0 ∷ 0 ∷ 0 ∷ 0 ∷ [] }
    ensures entry { capability_bytes (record { place = 0x80000300; base = 0x80002000; length = 0x1000; perms = 13; flag = 1 })
        ≡ 0 ∷ 3 ∷ 0 ∷ 128 ∷ 0 ∷ 0 ∷ 0 ∷ 0 ∷ 0 ∷ 32 ∷ 0 ∷ 128 ∷ 0 ∷ 0 ∷ 0 ∷ 0 ∷ 0 ∷ 16 ∷ 0 ∷ 0 ∷ 0 ∷ 0 ∷ 0 ∷ 0
        ∷ 13 ∷ 0 ∷ 0 ∷ 0 ∷ 1 ∷ 0 ∷ 0 ∷ 0 ∷ [] }
{}
