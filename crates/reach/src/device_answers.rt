//! The first member that opens a register of the devices.
ghost use Rattle.std.specs.Prelude.{IfNone, IfSome};
ghost use Rattle.cap_rights.specs.Rights.{OpensStore};
ghost use Rattle.devices.specs.Devices.{halt, timer_compare, transmit, control_register};
ghost use Rattle.reached.specs.Links.{values};
ghost use Rattle.reach.specs.First.{IsFirst, HoldsOfNone};

use crate::reach::Reach;
use cap_bounds::CapRep;

/// Where halt begins: a store halts the machine.
pub const HALT: u64 = 0x0010_0000;

/// Where mtimecmp begins: a store sets the time from which the timer interrupts.
pub const TIMER_COMPARE: u64 = 0x0200_4000;

/// Where mtime begins: the timer's count.
pub const TIMER: u64 = 0x0200_bff8;

/// Where transmit begins: a store sends a byte.
pub const TRANSMIT: u64 = 0x1000_0000;

/// Where status begins: whether a byte waits, and whether one was lost.
pub const STATUS: u64 = 0x1000_0010;

/// Where control begins: a store says whether a byte that waits interrupts.
pub const CONTROL: u64 = 0x1000_0018;

impl<C: CapRep> Reach<C> {
    /// The first member through which a byte may be stored where a register begins.
    fn first_store_at(&self, register: u64) -> Option<usize>
        ensures some { IfSome result (IsFirst (λ v. OpensStore v register) (values C.value self.now)) }
        ensures none { IfNone result (HoldsOfNone (λ v. OpensStore v register) (values C.value self.now)) }
    {
        self.first_store(register, 1)
    }

    /// The first member through which the transmit register may be stored to.
    pub fn may_send(&self) -> Option<usize>
        ensures some { IfSome result (IsFirst (λ v. OpensStore v transmit) (values C.value self.now)) }
        ensures none { IfNone result (HoldsOfNone (λ v. OpensStore v transmit) (values C.value self.now)) }
    {
        self.first_store_at(TRANSMIT)
    }

    /// The first member through which the halt register may be stored to.
    pub fn may_halt(&self) -> Option<usize>
        ensures some { IfSome result (IsFirst (λ v. OpensStore v halt) (values C.value self.now)) }
        ensures none { IfNone result (HoldsOfNone (λ v. OpensStore v halt) (values C.value self.now)) }
    {
        self.first_store_at(HALT)
    }

    /// The first member through which mtimecmp may be stored to.
    pub fn may_set_timer(&self) -> Option<usize>
        ensures some { IfSome result (IsFirst (λ v. OpensStore v timer_compare) (values C.value self.now)) }
        ensures none { IfNone result (HoldsOfNone (λ v. OpensStore v timer_compare) (values C.value self.now)) }
    {
        self.first_store_at(TIMER_COMPARE)
    }

    /// The first member through which the console's control register may be stored to.
    pub fn may_set_control(&self) -> Option<usize>
        ensures some { IfSome result (IsFirst (λ v. OpensStore v control_register) (values C.value self.now)) }
        ensures none { IfNone result (HoldsOfNone (λ v. OpensStore v control_register) (values C.value self.now)) }
    {
        self.first_store_at(CONTROL)
    }
}
