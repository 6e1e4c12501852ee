/// Where the bytes of a flat file go in an image: what the command line names of it.
#[derive(Clone, Copy, Debug, PartialEq, Eq)]
pub struct Layout {
    /// The address of the first byte; by default RAM's first.
    pub at: Option<u64>,
    /// The address of the first instruction; by default that of the first byte.
    pub entry: Option<u64>,
    /// How many pages of 4096 bytes RAM has; by default 256, or as many more as hold the bytes.
    pub pages: Option<u64>,
    /// The encoding mode, 0 for integer and 1 for capability; by default 0.
    pub mode: Option<u64>,
    /// Whether the bytes of an ELF are taken as they stand: without it an ELF is refused.
    pub flat_elf: bool,
}
