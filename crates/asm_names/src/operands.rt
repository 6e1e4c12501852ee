ghost use Rattle.std.specs.Prelude.{◌≡◌};
ghost use Rattle.asm_names.specs.Slots.{slots_of as slots_are};

use isa_rows::{Row, Slot};

/// The operands that a row is written with, in order (unprivileged manual, assembly listings; CHERI ISA version 9, instruction pages).
pub fn slots_of(row: Row) -> &'static [Slot]
    ensures { result.now ≡ slots_are row }
{
    row.slots()
}
