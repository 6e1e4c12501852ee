//! Where RAM lies, and how large it can be.

/// The address of the first byte of RAM.
pub const BASE: u64 = 0x8000_0000;

/// The bytes of a page.
pub const PAGE_BYTES: u64 = 4096;

/// The most pages that RAM has.
pub const MOST_PAGES: u32 = 65536;

/// The most pages that an image file of version 1 asks for.
pub const MOST_PAGES_VERSION_1: u32 = 4096;
