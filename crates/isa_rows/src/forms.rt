//! The forms in which operands are written, each the slots of a row in order (unprivileged manual, assembly listings; CHERI ISA
//! version 9, instruction pages).

use crate::slots::Naming::{ByMode, Capability, Integer};
use crate::slots::Slot;

// rd, rs1, rs2
pub(crate) const INTEGERS: &'static [Slot] = &[
    Slot::Rd(Integer),
    Slot::Rs1(Integer),
    Slot::Rs2(Integer),
];

// rd, rs1, imm
pub(crate) const IMMEDIATE: &'static [Slot] = &[
    Slot::Rd(Integer),
    Slot::Rs1(Integer),
    Slot::Signed,
];

// rd, rs1, imm, of six bits and of five
pub(crate) const SHIFT_6: &'static [Slot] = &[
    Slot::Rd(Integer),
    Slot::Rs1(Integer),
    Slot::Unsigned(6),
];

pub(crate) const SHIFT_5: &'static [Slot] = &[
    Slot::Rd(Integer),
    Slot::Rs1(Integer),
    Slot::Unsigned(5),
];

// rd, imm
pub(crate) const UPPER: &'static [Slot] = &[Slot::Rd(Integer), Slot::Upper];

// rd, imm; the result of auipc is a capability in capability mode
pub(crate) const UPPER_LINK: &'static [Slot] = &[Slot::Rd(ByMode), Slot::Upper];

// rs1, rs2, target
pub(crate) const BRANCH: &'static [Slot] = &[
    Slot::Rs1(Integer),
    Slot::Rs2(Integer),
    Slot::Target(13),
];

// rd, target
pub(crate) const JUMP: &'static [Slot] = &[Slot::Rd(ByMode), Slot::Target(21)];

// rd, imm(rs1)
pub(crate) const JUMP_REGISTER: &'static [Slot] = &[Slot::Rd(ByMode), Slot::Address(ByMode)];

// rd, imm(rs1)
pub(crate) const LOAD: &'static [Slot] = &[Slot::Rd(Integer), Slot::Address(ByMode)];

// cd, imm(rs1)
pub(crate) const LOAD_CAPABILITY: &'static [Slot] = &[Slot::Rd(Capability), Slot::Address(ByMode)];

// rs2, imm(rs1)
pub(crate) const STORE: &'static [Slot] = &[Slot::Rs2(Integer), Slot::Address(ByMode)];

// cs2, imm(rs1)
pub(crate) const STORE_CAPABILITY: &'static [Slot] = &[
    Slot::Rs2(Capability),
    Slot::Address(ByMode),
];

// rd, csr, rs1
pub(crate) const CSR_REGISTER: &'static [Slot] = &[
    Slot::Rd(Integer),
    Slot::Csr,
    Slot::Rs1(Integer),
];

// rd, csr, imm
pub(crate) const CSR_IMMEDIATE: &'static [Slot] = &[Slot::Rd(Integer), Slot::Csr, Slot::Small];

// cd, cs1, rs2
pub(crate) const DERIVED: &'static [Slot] = &[
    Slot::Rd(Capability),
    Slot::Rs1(Capability),
    Slot::Rs2(Integer),
];

// cd, cs1, imm
pub(crate) const DERIVED_BY_IMMEDIATE: &'static [Slot] = &[
    Slot::Rd(Capability),
    Slot::Rs1(Capability),
    Slot::Signed,
];

pub(crate) const DERIVED_BY_LENGTH: &'static [Slot] = &[
    Slot::Rd(Capability),
    Slot::Rs1(Capability),
    Slot::Unsigned(12),
];

// cd, cs1, cs2
pub(crate) const SEALED: &'static [Slot] = &[
    Slot::Rd(Capability),
    Slot::Rs1(Capability),
    Slot::Rs2(Capability),
];

// rd, cs1, cs2
pub(crate) const COMPARED: &'static [Slot] = &[
    Slot::Rd(Integer),
    Slot::Rs1(Capability),
    Slot::Rs2(Capability),
];

// rd, cs1
pub(crate) const INSPECTED: &'static [Slot] = &[Slot::Rd(Integer), Slot::Rs1(Capability)];

// rd, rs1
pub(crate) const ROUNDED: &'static [Slot] = &[Slot::Rd(Integer), Slot::Rs1(Integer)];

// cd, cs1
pub(crate) const MOVED: &'static [Slot] = &[Slot::Rd(Capability), Slot::Rs1(Capability)];

// cs1, cs2
pub(crate) const INVOKED: &'static [Slot] = &[Slot::Rs1(Capability), Slot::Rs2(Capability)];

// cd, scr, cs1
pub(crate) const SPECIAL: &'static [Slot] = &[
    Slot::Rd(Capability),
    Slot::Special,
    Slot::Rs1(Capability),
];

// rd, (rs1), where the value, the authority or both are capabilities
pub(crate) const LOADED_BY_INTEGER: &'static [Slot] = &[
    Slot::Rd(Integer),
    Slot::Authority(Integer),
];

pub(crate) const LOADED_BY_CAPABILITY: &'static [Slot] = &[
    Slot::Rd(Integer),
    Slot::Authority(Capability),
];

pub(crate) const LOADED_CAPABILITY_BY_INTEGER: &'static [Slot] = &[
    Slot::Rd(Capability),
    Slot::Authority(Integer),
];

pub(crate) const LOADED_CAPABILITY_BY_CAPABILITY: &'static [Slot] = &[
    Slot::Rd(Capability),
    Slot::Authority(Capability),
];

// rs2, (rs1), where the value, the authority or both are capabilities
pub(crate) const STORED_BY_INTEGER: &'static [Slot] = &[
    Slot::Rs2(Integer),
    Slot::Authority(Integer),
];

pub(crate) const STORED_BY_CAPABILITY: &'static [Slot] = &[
    Slot::Rs2(Integer),
    Slot::Authority(Capability),
];

pub(crate) const STORED_CAPABILITY_BY_INTEGER: &'static [Slot] = &[
    Slot::Rs2(Capability),
    Slot::Authority(Integer),
];

pub(crate) const STORED_CAPABILITY_BY_CAPABILITY: &'static [Slot] = &[
    Slot::Rs2(Capability),
    Slot::Authority(Capability),
];

// no operands
pub(crate) const NONE: &'static [Slot] = &[];
