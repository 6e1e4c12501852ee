/// Why a conversation was cut short.
#[derive(Clone, Copy, Debug, PartialEq, Eq)]
pub enum TalkFault {
    /// The input could not be read. The replies to the lines before are written.
    Read,
    /// A reply could not be written: a beginning of the text is. The command of that reply was done.
    Write,
    /// No memory for a reply. The replies to the lines before are written, and the command was not done.
    Memory,
}
