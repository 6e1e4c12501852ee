//! Where a search of a state begins.
ghost use Rattle.std.specs.Prelude.{◌≡◌, map, IfOk};
ghost use Rattle.steps.specs.IsState.{IsState};
ghost use Rattle.doors.specs.Roots.{roots_of, specials_of};

use cap_bounds::CapRep;
use hart::Hart;
use std::alloc::{AllocError, Global};

/// The 32 registers, PCC and DDC: what instructions name without further rights.
pub fn roots<C: CapRep>(alloc: Global, hart: &Hart<C>) -> Result<Vec<C>, AllocError>
    ensures value { IfOk result (λ found. map C.value found.items ≡ roots_of hart.now) }
    ensures state { IsState hart.now }
{
    hart.is_state();
    let mut found = Vec::new(alloc);
    for n in 0..32u8 {
        found.push(hart.reg(n))?;
    }
    found.push(hart.scrs().pcc())?;
    found.push(hart.scrs().ddc())?;
    Ok(found)
}

/// The special registers that Access_System_Registers guards: MTCC, MTDC, MScratchC and MEPCC.
pub fn specials<C: CapRep>(alloc: Global, hart: &Hart<C>) -> Result<Vec<C>, AllocError>
    ensures { IfOk result (λ found. map C.value found.items ≡ specials_of hart.now.scrs) }
{
    let scrs = hart.scrs();
    let mut found = Vec::new(alloc);
    found.push(scrs.mtcc())?;
    found.push(scrs.mtdc())?;
    found.push(scrs.mscratchc())?;
    found.push(scrs.mepcc())?;
    Ok(found)
}
