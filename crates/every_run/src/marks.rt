//! Which places of the kernel's state are known where a trap is handled.
ghost use Rattle.std.specs.Prelude.{◌≡◌, ◌<◌, false, IfSome, IsTrue};
ghost use Rattle.steps.specs.Applying.{CanApply, meant};
ghost use Rattle.steps.specs.Looks.{HasRegisters};
ghost use Rattle.every_run.specs.Handled.{LeavesExact, MovesSpecial, entry_marks, marked, unknown_in};

use base::scr;
use cap_bounds::CapRep;
use hart::Hart;
use isa_rows::Insn;
use steps::Effect;

/// Which places may hold anything within the rights of a set of capabilities, the others being exact: the 32 registers, MScratchC and
/// MEPCC.
#[derive(Clone, Copy, Debug)]
pub struct Marks {
    /// The 32 registers.
    pub registers: [bool; 32],
    /// MScratchC.
    pub mscratchc: bool,
    /// MEPCC.
    pub mepcc: bool,
}

impl Marks {
    /// The marks where a trap enters.
    pub(crate) fn at_entry() -> Marks
        ensures { result ≡ entry_marks }
    {
        let mut registers = [true; 32];
        registers[0] = false;
        Marks {
            registers,
            mscratchc: false,
            mepcc: true,
        }
    }

    /// Whether a register is unknown.
    pub(crate) fn is_unknown(self, n: u8) -> bool
        requires { n < 32 }
        ensures { result ≡ unknown_in self n }
    {
        self.registers[n as usize]
    }

    /// The marks after a register is written: it is unknown then, or exact.
    pub(crate) fn marked(self, rd: u8, unknown: bool) -> Marks
        requires { rd < 32 }
        ensures { result ≡ marked rd unknown self }
    {
        let mut later = self;
        if rd != 0 {
            later.registers[rd as usize] = unknown;
        }
        later
    }

    /// Whether both registers that an instruction names are exact.
    pub(crate) fn are_exact(self, insn: Insn) -> bool
        requires { HasRegisters insn }
        ensures one { IsTrue result → unknown_in self insn.rs1 ≡ false }
        ensures two { IsTrue result → unknown_in self insn.rs2 ≡ false }
    {
        !self.is_unknown(insn.rs1) && !self.is_unknown(insn.rs2)
    }

    /// The marks after an effect that is the same in each state, if they are followed.
    #[tactic(auto, unfolding(steps::specs::Applying::CanApply))]
    pub(crate) fn after<C: CapRep>(self, hart: &Hart<C>, effect: &Effect<C>) -> Option<Marks>
        requires { CanApply effect.now hart.now }
        ensures { IfSome result (λ later. LeavesExact (meant C.value effect.now) self later) }
    {
        match effect {
            Effect::Write(write) => Some(self.marked(write.rd, false)),
            Effect::Link(link) => Some(self.marked(link.rd, false)),
            Effect::Nothing | Effect::Jump(_) | Effect::DeviceStore(_) => Some(self),
            _ => None,
        }
    }

    /// The marks after a special register is read, and perhaps replaced, if they are followed.
    pub(crate) fn after_special(self, insn: Insn) -> Option<Marks>
        requires { HasRegisters insn }
        ensures { IfSome result (λ later. MovesSpecial insn self later) }
    {
        let replaced = insn.rs1 != 0;
        if insn.rs2 == scr::MTDC && !replaced {
            return Some(self.marked(insn.rd, false));
        }
        if insn.rs2 == scr::MSCRATCHC {
            let mut later = self.marked(insn.rd, self.mscratchc);
            if replaced {
                later.mscratchc = self.is_unknown(insn.rs1);
            }
            return Some(later);
        }
        if insn.rs2 == scr::MEPCC {
            let mut later = self.marked(insn.rd, self.mepcc);
            if replaced {
                later.mepcc = self.is_unknown(insn.rs1);
            }
            return Some(later);
        }
        None
    }
}
