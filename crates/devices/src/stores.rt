ghost use Rattle.std.specs.Prelude.{◌≡◌, ◌%◌, ◌↔◌, IsTrue, OnErr, OnOk, None};
ghost use Rattle.base.specs.Size.{bytes_of};
ghost use Rattle.base.specs.FirstFault.{unless};
ghost use Rattle.devices.specs.Devices.{write_fault, effect_of, byte_sent, kept_in, written};
ghost use Rattle.devices.specs.Devices as spec;

use crate::devices::{Devices, Effect};
use crate::fault::DeviceFault;
use crate::map::{Register, TRANSMIT, is_register, kept_at};
use base::Size;

/// Answers the low byte of a number, which transmit sends.
#[inline]
fn low_byte(value: u64) -> u8
    ensures { result ≡ value % 256 }
{
    (value % 256) as u8
}

/// Answers what a store of a number at the address does outside the devices.
#[inline]
#[tactic(auto, unfolding(crate::specs::Devices::effect_of))]
fn effect(address: u64, value: u64) -> Effect
    ensures { result ≡ effect_of address value }
{
    match Register::at(address) {
        Some(Register::Halt) => Effect::Halt(value),
        Some(Register::Transmit) => Effect::Byte(low_byte(value)),
        _ => Effect::None,
    }
}

/// Tells whether a store of this size may be made at the address, if a register begins there: 8 bytes, or at transmit also one byte.
#[inline]
fn takes_size(address: u64, size: Size) -> bool
    ensures { result ≡ spec.takes_size address (bytes_of size) }
{
    match size {
        Size::Double => true,
        Size::Byte => address == TRANSMIT,
        Size::Half | Size::Word => false,
    }
}

impl Devices {
    /// Tells whether a register at the address takes a store of this size: 8 bytes, or for transmit also one byte.
    #[inline]
    #[tactic(auto, unfolding(crate::specs::Devices::write_fault))]
    pub fn takes(address: u64, size: Size) -> bool
        ensures { IsTrue result ↔ (write_fault address (bytes_of size) ≡ None) }
    {
        is_register(address) && takes_size(address, size)
    }

    /// Answers the byte that a store of a number at the address sends, if the register there sends.
    #[inline]
    #[tactic(auto, unfolding(crate::specs::Devices::effect_of))]
    pub fn sends(address: u64, value: u64) -> Option<u8>
        ensures { result ≡ byte_sent (effect_of address value) }
    {
        match Register::at(address) {
            Some(Register::Transmit) => Some(low_byte(value)),
            _ => None,
        }
    }

    /// Keeps a number in the register at the address, if it only keeps one.
    #[inline]
    fn keep(&mut self, address: u64, value: u64)
        ensures { self.new ≡ record self.old { kept = kept_in (spec.kept_at address) value self.old.kept } }
    {
        if let Some(index) = kept_at(address) {
            self.kept[index] = value;
        }
    }

    /// Stores a number into a register and answers what it does outside the devices. V1 where no register begins at the
    /// address, then V2 where it does not take the size: 8 bytes, or for transmit also one byte. A refused store changes
    /// nothing.
    #[tactic(auto, unfolding(crate::specs::Devices::write_fault))]
    pub fn write(&mut self, address: u64, size: Size, value: u64) -> Result<Effect, DeviceFault>
        ensures which { result ≡ unless (write_fault address (bytes_of size)) (effect_of address value) }
        ensures ok { OnOk result (self.new ≡ written self.old address value) }
        ensures err { OnErr result (self.new ≡ self.old) }
    {
        if !is_register(address) {
            return Err(DeviceFault::V1);
        }
        if !takes_size(address, size) {
            return Err(DeviceFault::V2);
        }
        self.store_at(address, value);
        Ok(effect(address, value))
    }

    /// Keeps what a store of a number at the address leaves there, and nothing where no register begins.
    #[inline]
    #[tactic(auto, unfolding(crate::specs::Devices::written))]
    pub fn store_at(&mut self, address: u64, value: u64)
        ensures { self.new ≡ written self.old address value }
    {
        match Register::at(address) {
            Some(register) => self.act(register, value),
            None => self.keep(address, value),
        }
    }
}
