//! Calls over capabilities in both forms, of which each is to say and to give the same.

use crate::agreements::{Both, agree, agree_at, agree_over, pair, pair_of};
use crate::words::Words;
use base::{Fault, Size};
use cap_bounds::{CapRep, representable};
use cap_checks::{
    Access, Stored, check_access, check_fetch, check_invoke, check_jump, check_target,
};
use cap_format::CapWord;
use cap_insns::cap_op;
use cap_rights::{
    Permission, Perms, and_perms, equal_exact, opened, permits, seal, seal_entry, set_flags,
    subset, unseal,
};
use isa_rows::{Format, Insn, Kind, ROWS, Row};

/// The hardware permissions by their bits, from 0 on.
pub(crate) const PERMISSIONS: [Permission; 12] = [
    Permission::Global,
    Permission::Execute,
    Permission::Load,
    Permission::Store,
    Permission::LoadCapability,
    Permission::StoreCapability,
    Permission::StoreLocalCapability,
    Permission::Seal,
    Permission::CInvoke,
    Permission::Unseal,
    Permission::AccessSystemRegisters,
    Permission::SetCid,
];

/// Sixteen bytes in memory and a tag.
pub(crate) fn word(words: &mut Words) -> bool {
    let memory = words.wide().to_be_bytes();
    let word = CapWord::from_memory(memory);
    let c = pair_of(word, words.bit());
    word.to_memory() == memory && agree(c.record, c.word)
}

/// A value and an address.
pub(crate) fn window(words: &mut Words) -> bool {
    let c = pair(words);
    let address = words.hex();
    representable(c.record.word(), address) == representable(c.word.word(), address)
        && agree_at(c.record, c.word, address)
}

/// A value and a length.
pub(crate) fn request(words: &mut Words) -> bool {
    let c = pair(words);
    agree_over(c.record, c.word, words.hex())
}

/// Whether a value has the same permissions, and is the same unsealed, as an entry, and with fewer permissions and either flag.
fn rights_agree(c: Both, mask: u16) -> bool {
    let mut permit_the_same = true;
    for permission in &PERMISSIONS {
        permit_the_same &= permits(c.record, *permission) == permits(c.word, *permission);
    }
    let mask = Perms::from_bits(mask);
    permit_the_same
        && agree(opened(c.record), opened(c.word))
        && agree(seal_entry(c.record), seal_entry(c.word))
        && agree(and_perms(c.record, mask), and_perms(c.word, mask))
        && agree(set_flags(c.record, true), set_flags(c.word, true))
        && agree(set_flags(c.record, false), set_flags(c.word, false))
}

/// Whether a value and another one compare the same, and give the same sealed and unsealed.
fn pairs_agree(c: Both, other: Both) -> bool {
    subset(other.record, c.record) == subset(other.word, c.word)
        && equal_exact(c.record, other.record) == equal_exact(c.word, other.word)
        && agree(seal(c.record, other.record), seal(c.word, other.word))
        && agree(unseal(c.record, other.record), unseal(c.word, other.word))
}

/// A question about a value, and after it another value, or a number or none: all that can be asked of these is. Others are of no value.
pub(crate) fn right(words: &mut Words) -> bool {
    match words.word() {
        "type" | "set" | "shown" | "named" | "names" | "granule" | "record" => true,
        "subset" | "equal" | "seal" | "unseal" => {
            let c = pair(words);
            pairs_agree(c, pair(words))
        }
        "perms" => {
            let c = pair(words);
            rights_agree(c, words.hex16())
        }
        _ => rights_agree(pair(words), 0x5a5a),
    }
}

/// The row whose mnemonic is the next word.
pub(crate) fn row(words: &mut Words) -> Option<Row> {
    let name = words.word();
    ROWS.iter().find(|row| row.name() == name).copied()
}

/// The immediate of a row and the value in rs2, of which the next words are the one that it has.
fn second(row: Row, words: &mut Words) -> (u64, Both) {
    match row.format() {
        Format::Immediate | Format::Unsigned => (words.hex(), null()),
        _ => (0, pair(words)),
    }
}

fn null() -> Both {
    pair_of(CapWord::NULL, false)
}

/// The number of rs1 and the value in DDC: the words that are left, or 11 and null.
fn first(words: &mut Words) -> (u8, Both) {
    match words.next() {
        None => (11, null()),
        Some(number) => match number.parse() {
            Ok(rs1) => (rs1, pair(words)),
            Err(_) => {
                words.refuse();
                (11, null())
            }
        },
    }
}

/// A mnemonic, the value in rs1, and the value in rs2 or the immediate; then the number of rs1 and DDC, or nothing for 11 and null.
pub(crate) fn capability_row(words: &mut Words) -> Option<bool> {
    let row = row(words)?;
    let cs1 = pair(words);
    let (imm, cs2) = second(row, words);
    let (rs1, ddc) = first(words);
    if !matches!(row.kind(), Kind::Capability) {
        return None;
    }
    let insn = Insn {
        row,
        rd: 10,
        rs1,
        rs2: 12,
        imm,
    };
    let record = cap_op(insn, cs1.record, cs2.record, ddc.record);
    Some(agree(record, cap_op(insn, cs1.word, cs2.word, ddc.word)))
}

const ACCESSES: [Access; 8] = [
    Access::Load(Size::Byte),
    Access::Load(Size::Double),
    Access::Store(Size::Half),
    Access::Store(Size::Word),
    Access::LoadCapability,
    Access::StoreCapability(Stored::Untagged),
    Access::StoreCapability(Stored::Local),
    Access::StoreCapability(Stored::Global),
];

/// `load SIZE`, `store SIZE`, `loadc`, or `storec` and what is stored; then the authority's register, the authority and the address, with
/// which each kind of access is tried. Or `stored` and a value.
pub(crate) fn access(words: &mut Words) -> bool {
    match words.word() {
        "stored" => {
            let c = pair(words);
            return Stored::of(c.record) == Stored::of(c.word);
        }
        "loadc" => {}
        _ => {
            words.word();
        }
    }
    let register = words.register();
    let authority = pair(words);
    let address = words.hex();
    let mut all_same = true;
    for access in &ACCESSES {
        let record = check_access(authority.record, register, *access, address);
        let word = check_access(authority.word, register, *access, address);
        all_same &= are_same(record, word);
    }
    all_same
}

/// Whether two checks allow the same address, or have the same fault.
fn are_same(one: Result<u64, Fault>, other: Result<u64, Fault>) -> bool {
    match (one, other) {
        (Ok(one), Ok(other)) => one == other,
        (Err(one), Err(other)) => one == other,
        _ => false,
    }
}

/// `fetch PCC`, `target PCC TARGET` or `jump REGISTER VALUE OFFSET`; `to` is of no capability.
pub(crate) fn jump(words: &mut Words) -> bool {
    match words.word() {
        "fetch" => {
            let pcc = pair(words);
            are_same(check_fetch(pcc.record), check_fetch(pcc.word))
        }
        "target" => {
            let pcc = pair(words);
            let target = words.hex();
            let record = check_target(pcc.record, target);
            are_same(record, check_target(pcc.word, target))
        }
        "jump" => {
            let register = words.register();
            let c = pair(words);
            let offset = words.hex();
            let record = check_jump(c.record, register, offset);
            are_same(record, check_jump(c.word, register, offset))
        }
        _ => true,
    }
}

/// A register and the code in it, and a register and the data in it.
pub(crate) fn invocation(words: &mut Words) -> bool {
    let code_register = words.register();
    let code = pair(words);
    let data_register = words.register();
    let data = pair(words);
    let record = check_invoke(code.record, code_register, data.record, data_register);
    let word = check_invoke(code.word, code_register, data.word, data_register);
    are_same(record, word)
}
