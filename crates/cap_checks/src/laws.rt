//! What the checks ask for: each function's contract is a law over the definitions alone, and its body is empty.

ghost use Rattle.std.specs.Prelude.{◌≡◌, ℕ, true, false, None};
ghost use Rattle.cap_bounds.specs.CapValue.{CapValue, is_tagged};
ghost use Rattle.cap_rights.specs.Permission.{permits};
ghost use Rattle.cap_rights.specs.declared.permission.Permission.TheVariants.{Global, StoreCapability, StoreLocalCapability};
ghost use Rattle.cap_checks.specs.Access.{stored_of};
ghost use Rattle.cap_checks.specs.declared.access.Access.TheVariants as access;
ghost use Rattle.cap_checks.specs.FirstFault.{access_fault};

/// A capability is stored only by authority with Store_Capability, and one without Global only by authority with Store_Local_Capability.
pub fn stores_ask_for_their_permissions()
    ensures capability { (authority v : CapValue) (register address : ℕ)
        → access_fault authority register (access.StoreCapability (stored_of v)) address ≡ None → is_tagged v ≡ true
        → permits authority StoreCapability ≡ true }
    ensures local { (authority v : CapValue) (register address : ℕ)
        → access_fault authority register (access.StoreCapability (stored_of v)) address ≡ None → is_tagged v ≡ true
        → permits v Global ≡ false → permits authority StoreLocalCapability ≡ true }
{}
