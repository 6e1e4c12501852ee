//! What is set from outside between two events, and a copy of a machine.

ghost use Rattle.std.specs.Prelude.{◌≡◌, ◌<◌, IsTrue, IfOk, IfErr, OnOk, OnErr, length};
ghost use Rattle.base.specs.FirstFault.{unless};
ghost use Rattle.base.specs.Registers.{is_scr, is_csr};
ghost use Rattle.base.specs.declared.registers.scr.TheConstants.{PCC};
ghost use Rattle.tagged_memory.specs.Memory.{place_fault, fill_fault};
ghost use Rattle.special_regs.specs.Scrs.{IsAligned};
ghost use Rattle.steps.specs.Effect.{register_written};
ghost use Rattle.steps.specs.IsState.{IsState};
ghost use Rattle.hart.specs.Setting.{scr_set, csr_set, bytes_set, cap_set};

use crate::fault::MachineFault;
use crate::machine::Machine;
use cap_bounds::CapRep;
use std::alloc::Global;
use tagged_memory::MemoryFault;

impl<C: CapRep> Machine<C> {
    /// Replaces general register `n`, below 32. A write to the first is lost.
    pub fn set_reg(&mut self, n: u8, value: C)
        requires { n < 32 }
        ensures state { self.new ≡ register_written n (C.value value) self.old }
        ensures is_state { IsState self.new }
    {
        self.hart.set_reg(n, value);
    }

    /// Replaces special capability register `n`, which must exist; PCC's address is a multiple of 4.
    pub fn set_scr(&mut self, n: u8, value: C)
        requires exists { IsTrue (is_scr n) }
        requires aligned { n ≡ PCC → IsAligned (C.value value) }
        ensures state { self.new ≡ scr_set n (C.value value) self.old }
        ensures is_state { IsState self.new }
    {
        self.hart.set_scr(n, value);
    }

    /// Writes control and status register `n`, as an instruction writes it; one that is only read stays as it is.
    pub fn set_csr(&mut self, n: u16, value: u64)
        requires { IsTrue (is_csr n) }
        ensures state { self.new ≡ csr_set n value self.old }
        ensures is_state { IsState self.new }
    {
        self.hart.set_csr(n, value);
    }

    /// Writes bytes of RAM from `address` on, and takes the tag of each granule that some of them lie in: M3 outside RAM. A refused
    /// write changes nothing.
    pub fn set_bytes(&mut self, address: u64, bytes: &[u8]) -> Result<(), MemoryFault>
        ensures which { result ≡ unless (fill_fault self.old.memory address (length bytes.now)) tt }
        ensures state { OnOk result (self.new ≡ bytes_set address bytes.now self.old) }
        ensures same { OnErr result (self.new ≡ self.old) }
        ensures is_state { IsState self.new }
    {
        self.hart.set_bytes(address, bytes)
    }

    /// Writes the granule of RAM at `address`, with the value's tag: M4 where the address is no multiple of 16, then M3 outside RAM.
    /// A refused write changes nothing.
    pub fn set_cap(&mut self, address: u64, value: C) -> Result<(), MemoryFault>
        ensures which { result ≡ unless (place_fault self.old.memory address 16) tt }
        ensures state { OnOk result (self.new ≡ cap_set address (C.value value) self.old) }
        ensures same { OnErr result (self.new ≡ self.old) }
        ensures is_state { IsState self.new }
    {
        self.hart.set_cap(address, value)
    }

    /// Another machine in the same state: M2 where there is no memory for it, and no other fault.
    pub fn try_clone(&self, alloc: Global) -> Result<Self, MachineFault>
        ensures ok { IfOk result (λ machine. machine ≡ self.now) }
        ensures err { IfErr result (λ fault. fault ≡ MachineFault.M2) }
    {
        match self.hart.try_clone(alloc) {
            Ok(hart) => Ok(Machine { hart }),
            Err(_) => Err(MachineFault::M2),
        }
    }
}
