//! What crosses to C and back, besides capabilities.

use c_types::CheriCap;

/// A byte that was sent, if one was.
#[repr(C)]
#[derive(Clone, Copy)]
pub struct Sent {
    /// Whether a byte was sent.
    pub sends: bool,
    /// The byte, or 0.
    pub byte: u8,
}

/// What a run is asked to do.
#[repr(C)]
#[derive(Clone, Copy)]
pub struct RunAsked {
    /// The most steps.
    pub steps: u64,
    /// A tick follows each step whose number is a multiple of this; at 0 there is none.
    pub tick: u64,
    /// The number of the last step before the run: its own count from the next number on.
    pub before: u64,
    /// An address where it stops.
    pub address: u64,
    /// Whether it stops at the address.
    pub at_address: bool,
    /// Whether it stops before a step that traps, unseals, or jumps through a seal.
    pub at_end: bool,
    /// Whether it does steps that jump through a seal all the same.
    pub doors: bool,
}

/// What a run did.
#[repr(C)]
#[derive(Clone, Copy)]
pub struct RunDone {
    /// How many steps were done.
    pub steps: u64,
    /// How many bytes were sent.
    pub sent: u64,
    /// Why it stopped.
    pub stop: u32,
}

/// Whether a machine is halted.
#[repr(C)]
#[derive(Clone, Copy)]
pub struct Halted {
    /// Whether it is.
    pub halted: bool,
    /// The number, or 0.
    pub number: u64,
}

/// The timer.
#[repr(C)]
#[derive(Clone, Copy)]
pub struct Timer {
    /// Ticks, modulo 2^64.
    pub mtime: u64,
    /// The ticks from which on it interrupts.
    pub mtimecmp: u64,
}

/// The console, but for the bytes that wait.
#[repr(C)]
#[derive(Clone, Copy)]
pub struct Console {
    /// How many bytes wait, at most 64.
    pub waiting: u64,
    /// Whether a byte was lost.
    pub overrun: bool,
    /// Whether a byte that waits interrupts.
    pub control: bool,
}

/// A capability that code can come to hold, and where it was found.
#[repr(C)]
#[derive(Clone, Copy)]
pub struct Member {
    /// The capability.
    pub value: CheriCap,
    /// Its place there: a register's number (0 to 31, PCC 32, DDC 33), a special register's (MTCC 0, MTDC 1, MScratchC 2, MEPCC 3), or
    /// the address of a granule.
    pub place: u64,
    /// The number of the member that led there, or 0 in a register.
    pub from: u64,
    /// What it was found in: a register (0), a special register (1), or memory (2).
    pub kind: u32,
}

/// Whether code may do something.
#[repr(C)]
#[derive(Clone, Copy)]
pub struct Answer {
    /// The number of the first member that lets it, or 0.
    pub member: u64,
    /// Whether one does.
    pub may: bool,
}

/// What is asked of the code that runs from here on.
#[repr(C)]
#[derive(Clone, Copy)]
pub struct Question {
    /// The address of the first byte that is asked of.
    pub address: u64,
    /// How many bytes are asked of.
    pub count: u64,
    /// What is asked: to store (0), load (1), execute (2), learn (3) or keep (4) some of the bytes, to send (5), to halt (6), to use the
    /// system registers (7), to set the timer (8), or to hold the object type (9).
    pub kind: u32,
    /// The object type that is asked of.
    pub otype: u32,
    /// Whether sealed jumps are gone through, up to the next trap or unsealing.
    pub doors: bool,
}

/// A door, by the places of two members.
#[repr(C)]
#[derive(Clone, Copy)]
pub struct Door {
    /// The place of the sealed capability.
    pub sealed: u64,
    /// The place of the key that opens it: of a sentry its own.
    pub key: u64,
    /// What the sealed capability was found in.
    pub sealed_kind: u32,
    /// What the key was found in.
    pub key_kind: u32,
}

/// When a run ends, and when bytes and ticks come.
#[repr(C)]
#[derive(Clone, Copy)]
pub struct Timetable {
    /// The most steps, at most 10^14.
    pub steps: u64,
    /// Steps from one byte of the input to the next, 1 to 1000000. The first byte comes before the first step.
    pub gap: u64,
    /// Steps from one tick of the timer to the next, at most 1000000; at 0 there is none.
    pub tick: u64,
}

/// Where a policy stops a run, and why.
#[repr(C)]
#[derive(Clone, Copy)]
pub struct Breach {
    /// The number of the step that is not done, counted from 1, or 0.
    pub step: u64,
    /// The line of the rule that is broken, counted from 1, or 0.
    pub line: u64,
    /// The number of the reachable capability that breaks it, or 0.
    pub member: u64,
    /// The part of the rule: store (0), load (1), execute (2), transmit (3), halt (4), timer (5), system (6), seal (7), types (8) or
    /// keep (9).
    pub part: u32,
    /// Whether the policy stops the run.
    pub found: bool,
}

/// What steps did.
#[repr(C)]
#[derive(Clone, Copy)]
pub struct Stepped {
    /// How many were done.
    pub steps: u64,
    /// The byte that the last of them sent, if it sent one.
    pub sent: Sent,
}

/// What a machine was given.
#[repr(C)]
#[derive(Clone, Copy)]
pub struct Noted {
    /// How many steps or ticks, or the byte.
    pub number: u64,
    /// Whether steps (0), ticks (1) or a byte (2) were given.
    pub kind: u32,
}

/// A place that holds a capability or a number.
#[repr(C)]
#[derive(Clone, Copy)]
pub struct PlaceAsked {
    /// The number of a register or a special register, or the address of a granule.
    pub number: u64,
    /// Whether it is a register (0), a special register (1), or a granule (2).
    pub kind: u32,
}

/// What a place held after a step that wrote it, and what it was made of; or what it held at first.
#[repr(C)]
#[derive(Clone, Copy)]
pub struct Linked {
    /// What it held.
    pub value: CheriCap,
    /// How many events were before the step, or 0.
    pub before: u64,
    /// PCC's address at the step, or 0.
    pub pc: u64,
    /// The place.
    pub place: PlaceAsked,
    /// The place that the value was made of; where it has none, register 0.
    pub source: PlaceAsked,
    /// Whether it was made of a place.
    pub has_source: bool,
    /// Whether a step wrote it; if not, the opening state has it.
    pub written: bool,
}
