//! What holds of traps: each function's contract is a law, and its body is empty.

ghost use Rattle.std.specs.Prelude.{◌≡◌, ℕ, ◌+◌, ◌%◌, ◌^◌, ◌<◌};
ghost use Rattle.special_regs.specs.Traps.{entry_address};

/// Where a trap begins, with a handler at a multiple of 4 (RISC-V privileged manual, mtvec): there where mtvec is direct, and for each
/// exception; where it is vectored, 7 words on for the timer's interrupt and 11 for the external one.
pub fn entries_of_traps()
    ensures direct { (handler mcause mtval : ℕ) → handler % 4 ≡ 0 → handler < 2 ^ 64
        → entry_address (record { mcause = mcause; mtval = mtval }) handler ≡ handler }
    ensures exception { (handler mtval : ℕ) → handler % 4 ≡ 0 → handler < 2 ^ 64
        → entry_address (record { mcause = 28; mtval = mtval }) (handler + 1) ≡ handler }
    ensures timer { (handler mtval : ℕ) → handler % 4 ≡ 0 → handler + 28 < 2 ^ 64
        → entry_address (record { mcause = 0x8000000000000007; mtval = mtval }) (handler + 1) ≡ handler + 28 }
    ensures external { (handler mtval : ℕ) → handler % 4 ≡ 0 → handler + 44 < 2 ^ 64
        → entry_address (record { mcause = 0x800000000000000b; mtval = mtval }) (handler + 1) ≡ handler + 44 }
{}
