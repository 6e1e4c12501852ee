use reach::Range;

/// What the code in some ranges may do: what the capabilities that it can come to hold may open.
///
/// The ranges are of addresses. Those of `store`, `load`, `execute`, `keep` and `enter` are about RAM, that is about every address from
/// `0x8000_0000` on: a capability whose bounds go on past the memory of the machine opens what lies there too. Those of `store` and `load`
/// are about the device registers as well, each by the address at which it begins.
#[derive(Debug, Drop)]
pub struct Rule {
    /// The code: the rule applies to a state where an instruction can be fetched from one of these ranges.
    pub code: Vec<Range>,
    /// The bytes of RAM and the device registers that may be stored to.
    pub store: Vec<Range>,
    /// The bytes of RAM and the device registers that may be loaded.
    pub load: Vec<Range>,
    /// The bytes of RAM that may be fetched as code.
    pub execute: Vec<Range>,
    /// The bytes of RAM in whose granules what is lent without Global may be kept: a granule counts if all its 16 bytes are among them.
    pub keep: Vec<Range>,
    /// The addresses that may be entered through a seal, beside the bytes that may be fetched.
    pub enter: Vec<Range>,
    /// Whether bytes may be sent.
    pub transmit: bool,
    /// Whether the machine may be halted.
    pub halt: bool,
    /// Whether the timer's interrupt may be set.
    pub timer: bool,
    /// Whether the system registers may be used.
    pub system: bool,
    /// Whether values may be sealed or unsealed.
    pub seal: bool,
    /// The object types that sealed capabilities may have that it can come to hold, where not any may be; a sentry has no type of its own.
    pub types: Option<Vec<u64>>,
    /// Whether what the caller of the code could reach is allowed too.
    pub or_caller: bool,
}

/// A part of a rule.
#[derive(Clone, Copy, Debug, PartialEq, Eq)]
pub enum Ban {
    /// A byte of RAM or a device register that lies in none of the ranges for stores may be stored to.
    Store,
    /// A byte of RAM or a device register that lies in none of the ranges for loads may be loaded.
    Load,
    /// A byte of RAM that lies in none of the ranges for fetches may be fetched as code.
    Execute,
    /// What is lent without Global may be kept in a granule of RAM with a byte that lies in none of the ranges for it.
    Keep,
    /// An instruction may be entered through a seal that begins in no range for it and in none for fetches.
    Enter,
    /// Bytes may be sent.
    Transmit,
    /// The machine may be halted.
    Halt,
    /// The timer's interrupt may be set.
    Timer,
    /// The system registers may be used.
    System,
    /// Values may be sealed or unsealed.
    Seal,
    /// A sealed capability may come to be held whose object type is not one of the rule's.
    Types,
}
