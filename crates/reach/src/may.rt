//! What may be asked of the code that runs from here on, and how far an answer holds.

/// What is asked of the code that runs from here on.
#[derive(Clone, Copy)]
pub enum May {
    /// Whether it may store to some of so many bytes from an address.
    Store { address: u64, count: u64 },
    /// Whether it may load some of them.
    Load { address: u64, count: u64 },
    /// Whether it may execute some of them.
    Execute { address: u64, count: u64 },
    /// Whether it may learn anything of them.
    Learn { address: u64, count: u64 },
    /// Whether it may keep what is lent without Global in a granule with some of so many bytes from an address.
    Keep { address: u64, count: u64 },
    /// Whether it may send a byte on the console.
    Send,
    /// Whether it may halt the machine.
    Halt,
    /// Whether it may use the system registers.
    System,
    /// Whether it may set the timer.
    Timer,
    /// Whether it holds a capability that is sealed with this type, 0 to 262143.
    Hold(u64),
}

/// How far an answer about the code that runs from here on holds.
#[derive(Clone, Copy)]
pub enum Horizon {
    /// Up to the next trap, unsealing or sealed jump.
    Stretch,
    /// Up to the next trap or unsealing: through sealed jumps, too.
    Turn,
}
