//! Lines with bytes that are no part of a text.

/// Bytes that a file of another kind begins with, and what is said of it.
const BEGINNINGS: &'static [(&'static [u8], &'static str)] = &[
    (b"\x7fELF", "this is an ELF file, not a text"),
    (b"CHERIIMG", "this is an image, not a text"),
    (b"\x1f\x8b", "this is a compressed file, not a text"),
    (b"PK\x03\x04", "this is a compressed file, not a text"),
    (b"\xff\xfe", "this is UTF-16: save the text in ASCII"),
    (b"\xfe\xff", "this is UTF-16: save the text in ASCII"),
    (
        b"\xef\xbb\xbf",
        "a byte order mark begins the line: save the text without it",
    ),
];

/// What word processors and web pages write for ASCII, in UTF-8, and what is said of it.
const CHARACTERS: &'static [(&'static [u8], &'static str)] = &[
    (b"\0", "this is no text: it has a byte of 0"),
    (b"\xc2\xa0", "write a blank for the no-break space"),
    (b"\xe2\x80\x93", "write - for the dash"),
    (b"\xe2\x80\x94", "write - for the dash"),
    (b"\xe2\x88\x92", "write - for the minus sign"),
    (b"\xe2\x80\x98", "write ' for the curved quote"),
    (b"\xe2\x80\x99", "write ' for the curved quote"),
    (b"\xe2\x80\x9c", "write \" for the curved quote"),
    (b"\xe2\x80\x9d", "write \" for the curved quote"),
];

/// Whether bytes stand somewhere in a line.
fn has_bytes(line: &[u8], bytes: &[u8]) -> bool {
    for at in 0..line.len() {
        if line[at..].starts_with(bytes) {
            return true;
        }
    }
    false
}

/// What is said of a line with a byte that is no part of a text.
pub(crate) fn foreign(line: &[u8]) -> Option<&'static str> {
    for row in BEGINNINGS {
        if line.starts_with(row.0) {
            return Some(row.1);
        }
    }
    for row in CHARACTERS {
        if has_bytes(line, row.0) {
            return Some(row.1);
        }
    }
    None
}
