ghost use Rattle.std.specs.Prelude.{◌≡◌, Bool, List, [], ◌∷◌, Some, ℕ, codes};
ghost use Rattle.isa_rows.specs.declared.rows.Row.{Row};
ghost use Rattle.asm_names.specs.Mnemonic.{mnemonic, row_named};
ghost use Rattle.asm_names.specs.Registers.{register_name, register_named};
ghost use Rattle.asm_names.specs.SpecialNames.{csr_name, csr_named, scr_name, scr_named};
ghost use Rattle.asm_names.specs.TrapNames.{exceptions, interrupts, cheri_causes, cheri_asked};

/// A row's name in either mode names the row.
pub fn rows_are_read_back()
    ensures { (mode : Bool) (row : Row) → row_named (mnemonic mode row) ≡ Some row }
{}

/// The name that a register is shown by names the register.
pub fn registers_are_read_back()
    ensures { (capability : Bool) (n : ℕ) (text : List ℕ) → register_name capability n ≡ Some text → register_named text ≡ Some n }
{}

/// The name of a control and status register names the register.
pub fn csrs_are_read_back()
    ensures { (n : ℕ) (text : List ℕ) → csr_name n ≡ Some text → csr_named text ≡ Some n }
{}

/// The name of a special capability register names the register.
pub fn scrs_are_read_back()
    ensures { (n : ℕ) (text : List ℕ) → scr_name n ≡ Some text → scr_named text ≡ Some n }
{}

/// The exceptions by their numbers in mcause (RISC-V privileged manual, mcause; UCAM-CL-TR-987, CHERI exception).
pub fn names_of_exceptions()
    ensures { exceptions ≡ (0, codes "instruction address misaligned") ∷ (1, codes "instruction access fault")
        ∷ (2, codes "illegal instruction") ∷ (3, codes "breakpoint") ∷ (4, codes "load address misaligned")
        ∷ (5, codes "load access fault") ∷ (6, codes "store address misaligned") ∷ (7, codes "store access fault")
        ∷ (11, codes "environment call") ∷ (28, codes "CHERI exception") ∷ [] }
{}

/// The interrupts by what stands in mcause (RISC-V privileged manual, mcause).
pub fn names_of_interrupts()
    ensures { interrupts ≡ (0x8000000000000007, codes "timer interrupt") ∷ (0x800000000000000b, codes "external interrupt") ∷ [] }
{}

/// What a capability forbids, by its number in mtval (UCAM-CL-TR-987, capability exception codes).
pub fn names_of_cheri_causes()
    ensures forbidden { cheri_causes ≡ (1, codes "length violation") ∷ (2, codes "tag violation") ∷ (3, codes "seal violation")
        ∷ (4, codes "type violation") ∷ (0x11, codes "permit execute violation") ∷ (0x12, codes "permit load violation")
        ∷ (0x13, codes "permit store violation") ∷ (0x15, codes "permit store capability violation")
        ∷ (0x16, codes "permit store local capability violation") ∷ (0x18, codes "access system registers violation")
        ∷ (0x19, codes "permit CInvoke violation") ∷ [] }
    ensures asked { cheri_asked ≡ (1, codes "length") ∷ (2, codes "tag") ∷ (3, codes "seal") ∷ (4, codes "type")
        ∷ (0x11, codes "permit execute") ∷ (0x12, codes "permit load") ∷ (0x13, codes "permit store")
        ∷ (0x15, codes "permit store capability") ∷ (0x16, codes "permit store local capability")
        ∷ (0x18, codes "access system registers") ∷ (0x19, codes "permit CInvoke") ∷ [] }
{}
