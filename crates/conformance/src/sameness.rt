//! Whether two machines are in the same state, told without memory.

use base::{CSRS, Size, is_csr, is_scr, ram};
use cap_bounds::CapRep;
use machine::Machine;

fn is_same_value<C: CapRep>(one: C, two: C) -> bool {
    one.tag() == two.tag() && one.word().logical() == two.word().logical()
}

fn have_same_registers<C: CapRep>(one: &Machine<C>, two: &Machine<C>) -> bool {
    for n in 0..32u8 {
        if !is_same_value(one.reg(n), two.reg(n)) {
            return false;
        }
        if is_scr(n) && !is_same_value(one.scr(n), two.scr(n)) {
            return false;
        }
    }
    for (n, _, _) in &CSRS {
        if is_csr(*n) && one.csr(*n) != two.csr(*n) {
            return false;
        }
    }
    true
}

/// Whether RAM's first page and all tags are the same.
fn have_same_memory<C: CapRep>(one: &Machine<C>, two: &Machine<C>) -> bool {
    for place in 0..ram::PAGE_BYTES / 8 {
        let address = ram::BASE + 8 * place;
        let number = one.memory().read(address, Size::Double);
        if number.ok() != two.memory().read(address, Size::Double).ok() {
            return false;
        }
    }
    one.memory().planes() == two.memory().planes()
}

fn have_same_devices<C: CapRep>(one: &Machine<C>, two: &Machine<C>) -> bool {
    let (one, two) = (one.devices(), two.devices());
    one.mtime() == two.mtime()
        && one.mtimecmp() == two.mtimecmp()
        && one.waiting() == two.waiting()
        && one.overrun() == two.overrun()
        && one.control() == two.control()
        && one.halted() == two.halted()
}

/// Whether two machines of one page of RAM are in the same state.
pub(crate) fn are_same<C: CapRep>(one: &Machine<C>, two: &Machine<C>) -> bool {
    have_same_registers(one, two) && have_same_memory(one, two) && have_same_devices(one, two)
}
