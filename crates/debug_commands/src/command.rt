//! The commands of a session.
use crate::fault::DebugFault;
use origins::Place;
use reach::{Horizon, May};

/// What is watched for a change.
#[derive(Clone, Copy)]
pub enum Watched {
    /// What a place holds, its tag too.
    Held(Place),
    /// So many bytes from an address, 1 to 4096. They may lie outside RAM.
    Bytes { address: u64, count: u64 },
}

/// Where steps that a command gives stop.
#[derive(Clone, Copy)]
pub enum Stop {
    /// Before a step at which PCC's address is this one; any number of 64 bits.
    Address(u64),
    /// Before a step that would trap.
    Trap,
    /// Where what is watched isn't what it was when the command began.
    Changed(Watched),
}

/// The events that a command gives.
#[derive(Clone, Copy)]
pub enum Events {
    /// So many steps, 1 to 1000000.
    Steps(u64),
    /// So many ticks, 1 to 1000000.
    Ticks(u64),
    /// One byte on the console's line.
    Byte(u8),
    /// Steps until the machine is where they stop, at most so many, 1 to 1000000000.
    Until { stop: Stop, most: u64 },
    /// Events of the session's steps until what a place holds differs, at most so many, 1 to 1000000.
    Changed { place: Place, most: u64 },
    /// Steps until the machine is at a stop of the session or before a trap whose entry can't be fetched, the first of them wherever it is,
    /// at most so many, 1 to 1000000000000.
    Go { most: u64 },
}

/// What is made of the stops of a session.
#[derive(Clone, Copy)]
pub enum SetStops {
    /// One more, unless it is one of them already.
    Add(Stop),
    /// None is left.
    Clear,
}

/// What a command shows.
#[derive(Clone, Copy)]
pub enum View {
    /// A register, by its number: 0 to 31.
    Register(u8),
    /// A special capability register, by its number.
    SpecialRegister(u8),
    /// All registers.
    Registers,
    /// The special capability registers.
    SpecialRegisters,
    /// The control and status registers.
    ControlRegisters,
    /// The capabilities in RAM.
    Capabilities,
    /// So many bytes from an address, 1 to 4096. They may lie outside RAM.
    Memory { address: u64, count: u64 },
    /// So many words from an address, as instructions: 1 to 1024, from a multiple of 4 on. They may lie outside RAM.
    Words { address: u64, count: u64 },
    /// So many words from PCC's address, as instructions: 1 to 1024. They may lie outside RAM.
    WordsAtPcc(u64),
    /// What the next step will do, and why.
    Why,
    /// The same as objects of JSON, one a line.
    WhyObjects,
    /// What the code that runs from here on can reach, in sum.
    Reach(Horizon),
    /// Each capability of it, with where it was found.
    ReachMembers,
    /// The same as a graph, a text for Graphviz.
    ReachGraph,
    /// The same as objects of JSON, one a line.
    ReachObjects,
    /// Whether the code that runs from here on may do something.
    May(May, Horizon),
    /// The stops of the session.
    Stops,
    /// The commands with their operands.
    Help,
    /// A command's operands and an example, by the number of its line in the table.
    HelpOn(u8),
    /// What a refusal's code means.
    Code(DebugFault),
    /// Nothing.
    Nothing,
}

/// What a command asks of the events that a session was given.
#[derive(Clone, Copy)]
pub enum Recall {
    /// How many there were.
    Ago,
    /// How what a place holds came to be.
    Origin(Place),
    /// Where the tag of a place went.
    Lost(Place),
    /// Who called whom and has not returned.
    Calls,
}

/// How far a command goes back.
#[derive(Clone, Copy)]
pub enum Back {
    /// By so many events, 1 or more.
    By(u64),
    /// To the last place before at which a stop of the session holds.
    ToStop,
}

/// A command of a session. The ranges are those of a command that [`command_of`](crate::command_of) reads.
#[derive(Clone, Copy)]
pub enum Command {
    /// It gives events.
    Gives(Events),
    /// It shows, and changes nothing.
    Shows(View),
    /// It shows what came before, and changes nothing.
    Recalls(Recall),
    /// It takes the last events back.
    Back(Back),
    /// It sets the stops, and changes nothing of the machine.
    Sets(SetStops),
    /// The end.
    Quit,
}
