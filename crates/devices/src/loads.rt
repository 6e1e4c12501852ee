ghost use Rattle.std.specs.Prelude.{◌≡◌, ◌↔◌, IsTrue, OnErr, OnOk, None};
ghost use Rattle.base.specs.Size.{bytes_of};
ghost use Rattle.base.specs.FirstFault.{unless};
ghost use Rattle.devices.specs.Devices.{read_fault, value_at, kept_value, taken_at};
ghost use Rattle.devices.specs.Devices as spec;

use crate::devices::Devices;
use crate::fault::DeviceFault;
use crate::map::{Register, is_register, kept_at};
use base::Size;

impl Devices {
    /// Tells whether a register at the address may be loaded by this size: 8 bytes.
    #[inline]
    #[tactic(auto, unfolding(crate::specs::Devices::read_fault))]
    pub fn gives(address: u64, size: Size) -> bool
        ensures { IsTrue result ↔ (read_fault address (bytes_of size) ≡ None) }
    {
        size == Size::Double && is_register(address)
    }

    /// Answers what the register at the address keeps if it only keeps a number, 0 elsewhere.
    #[inline]
    fn kept_value(&self, address: u64) -> u64
        ensures { result ≡ kept_value (spec.kept_at address) self.now.kept }
    {
        match kept_at(address) {
            Some(index) => self.kept[index],
            None => 0,
        }
    }

    /// Answers what a load from the address would give, 0 where no register begins there, and takes nothing.
    #[inline]
    #[tactic(auto, unfolding(crate::specs::Devices::value_at))]
    pub fn value_at(&self, address: u64) -> u64
        ensures { result ≡ value_at address self.now }
    {
        match Register::at(address) {
            Some(register) => self.value(register),
            None => self.kept_value(address),
        }
    }

    /// Answers what a load of 8 bytes would give, and takes nothing. V1 where no register begins at the address.
    #[tactic(auto, unfolding(crate::specs::Devices::read_fault))]
    pub fn peek(&self, address: u64) -> Result<u64, DeviceFault>
        ensures { result ≡ unless (read_fault address 8) (value_at address self.now) }
    {
        if is_register(address) {
            Ok(self.value_at(address))
        } else {
            Err(DeviceFault::V1)
        }
    }

    /// Loads from a register, which takes the oldest byte where it is receive. V1 where no register begins at the address,
    /// then V2 where the size is not 8 bytes. A refused load takes nothing.
    #[tactic(auto, unfolding(crate::specs::Devices::read_fault))]
    pub fn read(&mut self, address: u64, size: Size) -> Result<u64, DeviceFault>
        ensures which { result ≡ unless (read_fault address (bytes_of size)) (value_at address self.old) }
        ensures ok { OnOk result (self.new ≡ taken_at address self.old) }
        ensures err { OnErr result (self.new ≡ self.old) }
    {
        if !is_register(address) {
            return Err(DeviceFault::V1);
        }
        if size != Size::Double {
            return Err(DeviceFault::V2);
        }
        let value = self.value_at(address);
        self.take_at(address);
        Ok(value)
    }

    /// Takes what a load from the address takes: the oldest byte from receive, and nothing elsewhere.
    #[inline]
    #[tactic(auto, unfolding(crate::specs::Devices::taken_at))]
    pub fn take_at(&mut self, address: u64)
        ensures { self.new ≡ taken_at address self.old }
    {
        if let Some(Register::Receive) = Register::at(address) {
            self.take_oldest();
        }
    }
}
