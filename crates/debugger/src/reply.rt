/// What a session answers to a command.
#[derive(Drop)]
pub enum Reply {
    /// Lines, each ended by a line feed.
    Text(String),
    /// The session ends.
    Quit,
}
