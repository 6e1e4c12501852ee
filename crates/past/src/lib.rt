//! What a session was given since the opening state of its image, and the states that it went through.
#![tactic(auto)]

mod anchor;
mod cutting;
mod events;
mod given;
mod giving;
pub mod laws;
mod past;
mod player;
mod replay;
mod seeking;

pub use anchor::Anchor;
pub use events::PastEvents;
pub use given::Given;
pub use past::Past;
pub use player::Player;
pub use replay::Replay;
