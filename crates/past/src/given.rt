ghost use Rattle.std.specs.Prelude.{◌≡◌};
ghost use Rattle.past.specs.Given.{count_of_one};

/// What a command gave: so many events of one kind.
#[derive(Clone, Copy, Debug, PartialEq, Eq)]
pub enum Given {
    /// So many events of the session's steps, with the bytes and ticks of its schedule if it has one.
    Steps(u64),
    /// So many ticks beside them.
    Ticks(u64),
    /// A byte beside them.
    Byte(u8),
}

/// How many events these are.
pub(crate) fn count_of_one(given: Given) -> u64
    ensures { result ≡ count_of_one given }
{
    match given {
        Given::Steps(n) | Given::Ticks(n) => n,
        Given::Byte(_) => 1,
    }
}
