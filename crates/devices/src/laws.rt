//! What holds of the map: each function's contract is a law, and its body is empty.

ghost use Rattle.std.specs.Prelude.{◌≡◌, [], ◌∷◌};
ghost use Rattle.devices.specs.Devices as spec;

use crate::map::{FIRST, KEPT, RECEIVE};

/// Where the registers lie, as numbers; and what those hold first that only keep a number.
pub fn places_of_registers()
    ensures halt { spec.halt ≡ 0x100000 }
    ensures timer_compare { spec.timer_compare ≡ 0x2004000 }
    ensures timer { spec.timer ≡ 0x200bff8 }
    ensures transmit { spec.transmit ≡ 0x10000000 }
    ensures receive { spec.receive ≡ 0x10000008 }
    ensures status { spec.status ≡ 0x10000010 }
    ensures control { spec.control_register ≡ 0x10000018 }
    ensures constant { RECEIVE ≡ spec.receive }
    ensures kept { KEPT ≡ 0x2004000 ∷ [] }
    ensures first { FIRST ≡ 0xffffffffffffffff ∷ [] }
{}
