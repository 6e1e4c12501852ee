ghost use Rattle.std.specs.Prelude.{◌≡◌, option_map};
ghost use Rattle.special_regs.specs.Scrs.{IsAligned, scr_value};
ghost use Rattle.special_regs.specs.Sound.{AreSound};
ghost use Rattle.special_regs.specs.Writes.{scr_written};

use base::scr;
use cap_bounds::CapRep;
use std::marker::Model;

/// The special capability registers. PCC's address is a multiple of 4.
#[derive(Drop)]
pub struct Scrs<C: CapRep> {
    pcc: C,
    ddc: C,
    mtcc: C,
    mtdc: C,
    mscratchc: C,
    mepcc: C,
}

impl<C: CapRep> Model for Scrs<C> {
    ghost use Rattle.special_regs.specs.Scrs as spec;

    ghost Value = { spec.Scrs };

    ghost view = { λ s. record {
      pcc = C.value s.pcc;
      ddc = C.value s.ddc;
      mtcc = C.value s.mtcc;
      mtdc = C.value s.mtdc;
      mscratchc = C.value s.mscratchc;
      mepcc = C.value s.mepcc;
    } };

    ghost invariant = { λ s. spec.IsAligned (C.value s.pcc) };
}

impl<C: CapRep> Scrs<C> {
    /// Creates the registers as they begin: root in DDC, MTCC and MEPCC, null in MTDC and MScratchC. The address of `pcc` must be
    /// a multiple of 4.
    pub fn new(pcc: C, root: C, null: C) -> Self
        requires { IsAligned (C.value pcc) }
        ensures pcc { result.pcc ≡ C.value pcc }
        ensures ddc { result.ddc ≡ C.value root }
        ensures mtcc { result.mtcc ≡ C.value root }
        ensures mtdc { result.mtdc ≡ C.value null }
        ensures mscratchc { result.mscratchc ≡ C.value null }
        ensures mepcc { result.mepcc ≡ C.value root }
    {
        Scrs {
            pcc,
            ddc: root,
            mtcc: root,
            mtdc: null,
            mscratchc: null,
            mepcc: root,
        }
    }

    /// The same registers once more.
    pub fn copied(&self) -> Self
        ensures { result ≡ self.now }
    {
        Scrs {
            pcc: self.pcc,
            ddc: self.ddc,
            mtcc: self.mtcc,
            mtdc: self.mtdc,
            mscratchc: self.mscratchc,
            mepcc: self.mepcc,
        }
    }

    /// Tells proofs what is true of all special capability registers: their values are sound. It does nothing.
    #[inline]
    pub fn are_sound(&self)
        ensures { AreSound self.now }
    {
        let _pcc = &self.pcc;
    }

    /// Returns the program counter capability.
    #[inline]
    pub fn pcc(&self) -> C
        ensures value { C.value result ≡ self.now.pcc }
        ensures aligned { IsAligned self.now.pcc }
    {
        self.pcc
    }

    /// Returns the default data capability.
    #[inline]
    pub fn ddc(&self) -> C
        ensures { C.value result ≡ self.now.ddc }
    {
        self.ddc
    }

    /// Returns the machine trap code capability.
    pub fn mtcc(&self) -> C
        ensures { C.value result ≡ self.now.mtcc }
    {
        self.mtcc
    }

    /// Returns the machine trap data capability.
    pub fn mtdc(&self) -> C
        ensures { C.value result ≡ self.now.mtdc }
    {
        self.mtdc
    }

    /// Returns the machine scratch capability.
    pub fn mscratchc(&self) -> C
        ensures { C.value result ≡ self.now.mscratchc }
    {
        self.mscratchc
    }

    /// Returns the machine exception program counter capability.
    pub fn mepcc(&self) -> C
        ensures { C.value result ≡ self.now.mepcc }
    {
        self.mepcc
    }

    /// Returns special register `number`: PCC 0, DDC 1, MTCC 28, MTDC 29, MScratchC 30, MEPCC 31; `None` where there is no such
    /// register.
    #[tactic(auto, unfolding(crate::specs::Scrs::scr_value))]
    pub fn get(&self, number: u8) -> Option<C>
        ensures value { option_map C.value result ≡ scr_value self.now number }
        ensures aligned { IsAligned self.now.pcc }
    {
        match number {
            scr::PCC => Some(self.pcc),
            scr::DDC => Some(self.ddc),
            scr::MTCC => Some(self.mtcc),
            scr::MTDC => Some(self.mtdc),
            scr::MSCRATCHC => Some(self.mscratchc),
            scr::MEPCC => Some(self.mepcc),
            _ => None,
        }
    }

    /// Replaces the program counter capability by one whose address is a multiple of 4.
    #[inline]
    pub fn set_pcc(&mut self, pcc: C)
        requires { IsAligned (C.value pcc) }
        ensures { self.new ≡ record self.old { pcc = C.value pcc } }
    {
        self.pcc = pcc;
    }

    /// Replaces special register `number`. PCC is not replaced, and where there is no such register nothing changes.
    #[tactic(auto, unfolding(crate::specs::Writes::scr_written))]
    pub fn set(&mut self, number: u8, value: C)
        ensures { self.new ≡ scr_written number (C.value value) self.old }
    {
        match number {
            scr::DDC => self.ddc = value,
            scr::MTCC => self.mtcc = value,
            scr::MTDC => self.mtdc = value,
            scr::MSCRATCHC => self.mscratchc = value,
            scr::MEPCC => self.mepcc = value,
            _ => {}
        }
    }
}
