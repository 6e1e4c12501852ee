ghost use Rattle.std.specs.Prelude.{◌≡◌, ◌+◌, ◌<◌, ◌≤◌, ◌++◌, length, vec_len, vec_capacity, IsOk, IsTrue, IfOk, IfErr, OnOk, OnErr, Some};
ghost use Rattle.std.specs.Prelude.{option_to_list};
ghost use Rattle.cap_bounds.specs.CapValue.{IsSound};
ghost use Rattle.devices.specs.Devices.{interrupts_of};
ghost use Rattle.base.specs.Registers.{is_scr};
ghost use Rattle.special_regs.specs.Scrs.{IsAligned, scr_value};
ghost use Rattle.base.specs.Registers.{is_csr};
ghost use Rattle.special_regs.specs.CsrValues.{csr_value};
ghost use Rattle.registers.specs.Registers.{register};
ghost use Rattle.steps.specs.State.{HoldsCapabilities};
ghost use Rattle.steps.specs.IsState.{IsState};
ghost use Rattle.steps.specs.Applying.{IsPlanned};
ghost use Rattle.steps.specs.Event.{after, sent};
ghost use Rattle.steps.specs.Step.{step_fetched};
ghost use Rattle.steps.specs.declared.event.Event.TheVariants.{Step};
ghost use Rattle.hart.specs.Opening.{opening};
ghost use Rattle.machine.specs.Run.{run_after, run_sent, end_of};

use crate::advance::known_steps;
use crate::end::End;
use crate::fault::MachineFault;
use cap_bounds::CapRep;
use devices::Devices;
use hart::{Hart, Planned};
use image::Image;
use std::alloc::Global;
use std::marker::Model;
use steps::{Event, Out};
use tagged_memory::Memory;

/// A machine that meets events, one at a time or in runs.
#[derive(Drop)]
pub struct Machine<C: CapRep> {
    pub(crate) hart: Hart<C>,
}

impl<C: CapRep> Model for Machine<C> {
    ghost use Rattle.std.specs.Coded.{codes};
    ghost use Rattle.tagged_memory.specs.Layout.{memory_code};
    ghost use Rattle.steps.specs.State.{State};

    ghost Value = { State };

    ghost coded = { Prim.hlevel (codes, memory_code) };

    ghost view = { λ m. m.hart };
}

/// Appends the byte that an event sent, if it sent one, to the others. There is room for it.
pub fn emit(out: &mut Vec<u8>, byte: Option<u8>)
    requires { vec_len out.old < vec_capacity out.old }
    ensures items { out.new.items ≡ out.old.items ++ option_to_list byte }
    ensures len { vec_len out.new ≤ vec_len out.old + 1 }
    ensures room { vec_capacity out.old ≤ vec_capacity out.new }
{
    if let Some(byte) = byte {
        out.push(byte).unwrap();
    }
}

impl<C: CapRep> Machine<C> {
    /// A machine in the opening state of an image: M2 where there is no memory for it, and no other fault.
    pub fn new(alloc: Global, image: &Image) -> Result<Self, MachineFault>
        ensures ok { IfOk result (λ machine. machine ≡ opening image.now) }
        ensures state { IfOk result IsState }
        ensures err { IfErr result (λ fault. fault ≡ MachineFault.M2) }
    {
        match Hart::new(alloc, image) {
            Ok(hart) => Ok(Machine { hart }),
            Err(_) => Err(MachineFault::M2),
        }
    }

    /// Meets one event, and answers the byte that is sent.
    #[inline]
    pub fn event(&mut self, event: Event) -> Out
        ensures state { self.new ≡ after event self.old }
        ensures byte { result.byte ≡ sent event self.old }
        ensures is_state { IsState self.new }
    {
        self.hart.event(event)
    }

    /// Plans the next step. Nothing is changed.
    #[inline]
    pub fn next(&self) -> Planned<C>
        ensures effect { IsPlanned C.value result.effect self.now }
        ensures fetched { result.fetched ≡ step_fetched self.now }
    {
        self.hart.next()
    }

    /// Does the next step, which was planned of this state, and answers the byte that is sent. A machine that is halted ignores it.
    #[inline]
    pub fn apply(&mut self, planned: Planned<C>) -> Out
        requires { IsPlanned C.value planned.effect self.old }
        ensures state { self.new ≡ after Step self.old }
        ensures byte { result.byte ≡ sent Step self.old }
        ensures is_state { IsState self.new }
    {
        self.hart.apply(planned)
    }

    /// Meets events in order and appends the sent bytes to `out`.
    ///
    /// Room for one byte an event is made before the first event. M5: there is no room, and then neither machine nor bytes
    /// are changed; where `out` has that room already, nothing is asked for and M5 can't come.
    pub fn run(&mut self, events: &[Event], out: &mut Vec<u8>) -> Result<End, MachineFault>
        ensures state { OnOk result (self.new ≡ run_after events.now self.old) }
        ensures bytes { OnOk result (out.new.items ≡ out.old.items ++ run_sent events.now self.old) }
        ensures end { IfOk result (λ end. end ≡ end_of self.new) }
        ensures is_state { IsState self.new }

        ensures fault { IfErr result (λ fault. fault ≡ MachineFault.M5) }
        ensures same_state { OnErr result (self.new ≡ self.old) }
        ensures same_bytes { OnErr result (out.new.items ≡ out.old.items) }
        ensures room { vec_len out.old + length events.now ≤ vec_capacity out.old → IsOk result }
    {
        if out.reserve(events.len()).is_err() {
            self.hart.is_state();
            return Err(MachineFault::M5);
        }
        let mut rest = events;
        let mut steps = 0;
        while !rest.is_empty() {
            steps = known_steps(rest, steps);
            let met = self.meet_first(rest, steps);
            emit(out, met.byte);
            let count = met.steps as usize;
            rest = &rest[count..];
            steps = steps.saturating_sub(count);
        }
        Ok(match self.halted() {
            Some(number) => End::Halted(number),
            None => End::Running,
        })
    }

    /// The hart, as a reader of its next effect sees it.
    pub fn hart(&self) -> &Hart<C>
        ensures value { result.now ≡ self.now }
        ensures state { IsState self.now }
    {
        self.hart.is_state();
        &self.hart
    }

    /// General register `n`, below 32.
    pub fn reg(&self, n: u8) -> C
        requires { n < 32 }
        ensures value { C.value result ≡ register self.now.registers n }
        ensures well_formed { IsSound (C.value result) }
        ensures state { IsState self.now }
    {
        self.hart.reg(n)
    }

    /// Special capability register `n`: PCC 0, DDC 1, MTCC 28, MTDC 29, MScratchC 30, MEPCC 31.
    pub fn scr(&self, n: u8) -> C
        requires { IsTrue (is_scr n) }
        ensures value { scr_value self.now.scrs n ≡ Some (C.value result) }
        ensures well_formed { IsSound (C.value result) }
        ensures aligned { IsAligned self.now.scrs.pcc }
        ensures state { IsState self.now }
    {
        self.hart.scr(n)
    }

    /// What a read of control and status register `n` gives; the register must exist.
    pub fn csr(&self, n: u16) -> u64
        requires { IsTrue (is_csr n) }
        ensures value { csr_value self.now.csrs self.now.scrs (interrupts_of self.now.devices) n ≡ Some result }
        ensures state { IsState self.now }
    {
        self.hart.csr(n)
    }

    /// RAM and its tags. The word of each tagged granule is a capability's.
    pub fn memory(&self) -> &Memory
        ensures value { result.now ≡ self.now.memory }
        ensures well_formed { HoldsCapabilities self.now.memory }
        ensures state { IsState self.now }
    {
        self.hart.memory()
    }

    /// The devices.
    pub fn devices(&self) -> &Devices
        ensures value { result.now ≡ self.now.devices }
        ensures state { IsState self.now }
    {
        self.hart.devices()
    }

    /// The number with which the machine was halted, if it was.
    pub fn halted(&self) -> Option<u64>
        ensures value { result ≡ self.now.devices.halted }
        ensures state { IsState self.now }
    {
        self.hart.halted()
    }
}
