//! The map: a line for each register, those that only keep a number and those that do something of their own.

ghost use Rattle.std.specs.Prelude.{◌≡◌, IfNone, IfSome, false};
ghost use Rattle.devices.specs.Devices.{is_named, is_register, kept_at, status_of, value_at, written};
ghost use Rattle.devices.specs.Map.{address_of};

use crate::devices::Devices;

/// Bit 1 of status: a byte was lost.
const OVERRUN: u64 = 2;

/// Where transmit begins: a store of one byte may be made too.
pub(crate) const TRANSMIT: u64 = 0x1000_0000;

/// Where receive begins: the one register from which a load takes something, the oldest byte that waits.
pub const RECEIVE: u64 = 0x1000_0008;

// The registers that only keep a number, a line each: where it begins, its name, and what it holds first. A store of 8 bytes sets it and
// a load gives it.
macro_rules! kept_registers {
    ($column:ident) => {
        $column! {
            0x0200_4000 "mtimecmp" u64::MAX; // the time from which the timer asks for its interrupt
        }
    };
}

macro_rules! places {
    ($($place:literal $name:literal $first:expr;)*) => { [$($place),*] };
}

macro_rules! first_numbers {
    ($($place:literal $name:literal $first:expr;)*) => { [$($first),*] };
}

/// How many registers only keep a number.
pub const KEPT_COUNT: usize = 1;

/// Where they begin.
pub const KEPT: [u64; KEPT_COUNT] = kept_registers!(places);

/// What they hold first.
pub const FIRST: [u64; KEPT_COUNT] = kept_registers!(first_numbers);

// The registers that do something of their own, a line each: where it begins, its name, what a load gives, and what a store leaves.
macro_rules! registers {
    ($form:ident $($sought:ident)?; $devices:ident $value:ident) => {
        $form! {
            $($sought)?;
            0x0010_0000 Halt 0 => $devices.halted = Some($value);
            0x0200_bff8 Timer $devices.mtime => $devices.mtime = $value;
            TRANSMIT Transmit 0 => ();
            RECEIVE Receive $devices.oldest() => ();
            0x1000_0010 Status $devices.status() => $devices.overrun = $devices.overrun && $value / OVERRUN % 2 != 1;
            0x1000_0018 Control u64::from($devices.control) => $devices.control = $value % 2 == 1;
        }
    };
}

macro_rules! at {
    ($address:ident; $($place:tt $register:ident $load:expr => $store:expr;)*) => {
        match $address {
            $($place => Some(Register::$register),)*
            _ => None,
        }
    };
}

macro_rules! load {
    ($sought:ident; $($place:tt $register:ident $load:expr => $store:expr;)*) => {
        match $sought {
            $(Register::$register => $load,)*
        }
    };
}

macro_rules! store {
    ($sought:ident; $($place:tt $register:ident $load:expr => $store:expr;)*) => {
        match $sought {
            $(Register::$register => $store,)*
        }
    };
}

/// Answers which of the registers that only keep a number begins at the address.
#[inline]
pub(crate) fn kept_at(address: u64) -> Option<usize>
    ensures { result ≡ kept_at address }
{
    KEPT.iter().position(|place| *place == address)
}

/// Tells whether a register begins at the address.
#[inline]
pub(crate) fn is_register(address: u64) -> bool
    ensures { result ≡ is_register address }
{
    Register::at(address).is_some() || kept_at(address).is_some()
}

/// A register of the devices that does something of its own.
#[derive(Clone, Copy, PartialEq, Eq)]
pub(crate) enum Register {
    /// A store halts the machine with the stored number.
    Halt,
    /// The time.
    Timer,
    /// A store sends the low byte.
    Transmit,
    /// A load takes the oldest byte that waits.
    Receive,
    /// Whether a byte waits, and whether one was lost.
    Status,
    /// Whether a byte that waits interrupts.
    Control,
}

impl Register {
    /// Answers the register of these that begins at the address.
    #[inline]
    pub(crate) fn at(address: u64) -> Option<Register>
        ensures some { IfSome result (λ register. address ≡ address_of register) }
        ensures none { IfNone result (is_named address ≡ false) }
    {
        registers!(at address; devices value)
    }
}

impl Devices {
    /// Answers status: whether a byte waits, and whether one was lost.
    #[inline]
    fn status(&self) -> u64
        ensures { result ≡ status_of self.now }
    {
        u64::from(self.waits()) + OVERRUN * u64::from(self.overrun)
    }

    /// Answers what a load gives from a register that does something of its own; from halt and transmit 0.
    #[inline]
    #[tactic(auto, unfolding(crate::specs::Devices::value_at))]
    pub(crate) fn value(&self, register: Register) -> u64
        ensures { result ≡ value_at (address_of register) self.now }
    {
        registers!(load register; self value)
    }

    /// Keeps what a store of a number into a register leaves that does something of its own.
    #[tactic(auto, unfolding(crate::specs::Devices::written))]
    pub(crate) fn act(&mut self, register: Register, value: u64)
        ensures { self.new ≡ written self.old (address_of register) value }
    {
        registers!(store register; self value)
    }
}
