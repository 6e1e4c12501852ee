ghost use Rattle.std.specs.Prelude.{◌≡◌};
ghost use Rattle.devices.specs.Devices.{idle, mtimecmp, AreDevices};

use crate::map::{FIRST, KEPT_COUNT};
use arrayvec::ArrayVec;
use std::marker::Model;

/// The most bytes that wait.
const QUEUE_LIMIT: usize = 64;

/// What a store into a device register does outside the devices.
#[derive(Clone, Copy, Debug, PartialEq, Eq)]
pub enum Effect {
    /// Nothing.
    None,
    /// A byte is sent.
    Byte(u8),
    /// The machine is halted with a number.
    Halt(u64),
}

/// The state of the timer, the console and halt, and of the registers that only keep a number.
#[derive(Clone, Debug, PartialEq, Eq, Drop)]
pub struct Devices {
    pub(crate) mtime: u64,
    pub(crate) kept: [u64; KEPT_COUNT],
    pub(crate) queue: ArrayVec<u8, QUEUE_LIMIT>,
    pub(crate) overrun: bool,
    pub(crate) control: bool,
    pub(crate) halted: Option<u64>,
}

impl Model for Devices {
    ghost use Rattle.devices.specs.Devices as spec;

    ghost Value = { spec.Devices };

    ghost use Rattle.devices.specs.Held.{devices_of, fields_of};

    ghost view = { devices_of };

    ghost invariant = { λ d. spec.AreDevices (devices_of d) };

    ghost inverse = { fields_of };
}

impl Devices {
    /// Makes the devices as they begin: mtime is 0 and mtimecmp 2^64 - 1, no byte waits, and nothing is halted.
    pub fn new() -> Self
        ensures { result ≡ idle }
    {
        Devices {
            mtime: 0,
            kept: FIRST,
            queue: ArrayVec::new(),
            overrun: false,
            control: false,
            halted: None,
        }
    }

    /// Makes the same devices once more.
    pub fn copied(&self) -> Self
        ensures { result ≡ self.now }
    {
        let mut queue = ArrayVec::new();
        for byte in self.queue.as_slice() {
            queue.push(*byte);
        }
        Devices {
            mtime: self.mtime,
            kept: self.kept,
            queue,
            overrun: self.overrun,
            control: self.control,
            halted: self.halted,
        }
    }

    /// Answers mtime: the ticks of the timer, modulo 2^64.
    #[inline]
    pub fn mtime(&self) -> u64
        ensures { result ≡ self.now.mtime }
    {
        self.mtime
    }

    /// Answers mtimecmp: the ticks from which on the timer interrupts.
    #[inline]
    pub fn mtimecmp(&self) -> u64
        ensures { result ≡ mtimecmp self.now }
    {
        self.kept[0]
    }

    /// Answers the bytes that wait, at most 64, the oldest first.
    #[inline]
    pub fn waiting(&self) -> &[u8]
        ensures value { result.now ≡ self.now.queue }
        ensures sound { AreDevices self.now }
    {
        self.queue.as_slice()
    }

    /// Tells whether a byte was lost, because 64 waited already, and a store into status has not cleared that.
    #[inline]
    pub fn overrun(&self) -> bool
        ensures { result ≡ self.now.overrun }
    {
        self.overrun
    }

    /// Tells whether a byte that waits interrupts.
    #[inline]
    pub fn control(&self) -> bool
        ensures { result ≡ self.now.control }
    {
        self.control
    }

    /// Answers the number with which the machine was halted, if it was.
    #[inline]
    pub fn halted(&self) -> Option<u64>
        ensures { result ≡ self.now.halted }
    {
        self.halted
    }
}
