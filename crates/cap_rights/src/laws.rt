//! What holds of derivations: each function's contract is a law, and its body is empty.

ghost use Rattle.std.specs.Prelude.{◌≡◌, ℕ, ◌^◌, Bool, true, false, ◌↔◌, IsTrue};
ghost use Rattle.cap_bounds.specs.CapValue.{CapValue, IsSound, is_tagged};
ghost use Rattle.cap_bounds.specs.CapValue.{is_sealed};
ghost use Rattle.cap_bounds.specs.SetAddress.{at_address};
ghost use Rattle.cap_bounds.specs.SetBounds.{with_bounds};
ghost use Rattle.cap_rights.specs.Permission.{bit_of, permits};
ghost use Rattle.cap_rights.specs.Opened.{opened};
ghost use Rattle.cap_rights.specs.Derivations.{and_perms, set_flags, seal, unseal, seal_entry, subset};
ghost use Rattle.cap_rights.specs.Within.{IsWithin, IsWithinIfTagged};
ghost use Rattle.cap_rights.specs.Rights.{IsInRightsOf, OpensSystem, OpensGranule, OpensStore, OpensCapabilityStore, OpensKeeping};
ghost use Rattle.cap_rights.specs.Rights.{OpensByte, OpensType};
ghost use Rattle.cap_rights.specs.Derived.{IsDerivedIfTagged, IsSealedWith};
ghost use Rattle.cap_rights.specs.Perms.{set_of_one, PermittedIsAmongThePermissions, ViewNamesItsSet};
ghost use Rattle.cap_rights.specs.declared.permission.Permission.{Permission};
ghost use Rattle.cap_rights.specs.declared.permission.Permission.TheVariants as permission;

use crate::perms::Perms;

/// What is derived of sound values is sound: a tagged result is a well-formed capability, and data has 128 bits.
pub fn derivations_are_sound()
    ensures fewer_permissions { (v : CapValue) (mask : ℕ) → IsSound v → IsSound (and_perms v mask) }
    ensures other_flag { (v : CapValue) (flag : Bool) → IsSound v → IsSound (set_flags v flag) }
    ensures sealed { (v authority : CapValue) → IsSound v → IsSound (seal v authority) }
    ensures unsealed { (v authority : CapValue) → IsSound v → IsSound (unseal v authority) }
    ensures entry { (v : CapValue) → IsSound v → IsSound (seal_entry v) }
    ensures type_alone { (v : CapValue) → IsSound v → IsSound (opened v) }
{}

/// A derivation's result that is tagged has its bounds in the operand's, and its permissions among the operand's.
pub fn derivations_stay_within()
    ensures fewer_permissions { (v : CapValue) (mask : ℕ) → IsWithinIfTagged (and_perms v mask) v }
    ensures other_flag { (v : CapValue) (flag : Bool) → IsWithinIfTagged (set_flags v flag) v }
    ensures sealed { (v authority : CapValue) → IsWithinIfTagged (seal v authority) v }
    ensures unsealed { (v authority : CapValue) → IsWithinIfTagged (unseal v authority) v }
    ensures entry { (v : CapValue) → IsWithinIfTagged (seal_entry v) v }
{}

/// One value is a subset of another exactly if their tags are equal and it lies within the other.
pub fn subset_is_within()
    ensures { (outer v : CapValue) → IsTrue (subset outer v) ↔ ((is_tagged outer ≡ is_tagged v) × IsWithin v outer) }
{}

/// A capability has a permission exactly if the set of its permissions has it.
pub fn permitted_is_among_the_permissions()
    ensures { PermittedIsAmongThePermissions }
{}

/// The permissions by their bits (UCAM-CL-TR-987, capability permissions).
pub fn bits_of_permissions()
    ensures global { bit_of permission.Global ≡ 0 }
    ensures execute { bit_of permission.Execute ≡ 1 }
    ensures load { bit_of permission.Load ≡ 2 }
    ensures store { bit_of permission.Store ≡ 3 }
    ensures load_capability { bit_of permission.LoadCapability ≡ 4 }
    ensures store_capability { bit_of permission.StoreCapability ≡ 5 }
    ensures store_local_capability { bit_of permission.StoreLocalCapability ≡ 6 }
    ensures seal { bit_of permission.Seal ≡ 7 }
    ensures cinvoke { bit_of permission.CInvoke ≡ 8 }
    ensures unseal { bit_of permission.Unseal ≡ 9 }
    ensures access_system_registers { bit_of permission.AccessSystemRegisters ≡ 10 }
    ensures set_cid { bit_of permission.SetCid ≡ 11 }
{}

/// Each constant is the set of the permission that its name says, and the user permissions follow the hardware permissions.
pub fn constants_are_their_permissions()
    ensures global { Perms.GLOBAL.bits ≡ set_of_one permission.Global }
    ensures execute { Perms.EXECUTE.bits ≡ set_of_one permission.Execute }
    ensures load { Perms.LOAD.bits ≡ set_of_one permission.Load }
    ensures store { Perms.STORE.bits ≡ set_of_one permission.Store }
    ensures load_capability { Perms.LOAD_CAPABILITY.bits ≡ set_of_one permission.LoadCapability }
    ensures store_capability { Perms.STORE_CAPABILITY.bits ≡ set_of_one permission.StoreCapability }
    ensures store_local_capability { Perms.STORE_LOCAL_CAPABILITY.bits ≡ set_of_one permission.StoreLocalCapability }
    ensures seal { Perms.SEAL.bits ≡ set_of_one permission.Seal }
    ensures cinvoke { Perms.CINVOKE.bits ≡ set_of_one permission.CInvoke }
    ensures unseal { Perms.UNSEAL.bits ≡ set_of_one permission.Unseal }
    ensures access_system_registers { Perms.ACCESS_SYSTEM_REGISTERS.bits ≡ set_of_one permission.AccessSystemRegisters }
    ensures set_cid { Perms.SET_CID.bits ≡ set_of_one permission.SetCid }
    ensures user0 { Perms.USER0.bits ≡ 2 ^ 12 }
    ensures user1 { Perms.USER1.bits ≡ 2 ^ 13 }
    ensures user2 { Perms.USER2.bits ≡ 2 ^ 14 }
    ensures user3 { Perms.USER3.bits ≡ 2 ^ 15 }
{}

/// The number that shows a set of permissions names that set.
pub fn view_names_its_set()
    ensures { ViewNamesItsSet }
{}

/// Rights pass outwards: from a value to the one whose rights it is within, and so does all that a value opens.
pub fn rights_pass_outwards()
    ensures itself { (v : CapValue) → IsInRightsOf v v }
    ensures through { (v c d : CapValue) → IsInRightsOf v c → IsInRightsOf c d → IsInRightsOf v d }
    ensures permission { (v c : CapValue) (p : Permission) → IsInRightsOf v c → permits v p ≡ true → permits c p ≡ true }
    ensures system { (v c : CapValue) → IsInRightsOf v c → OpensSystem v → OpensSystem c }
    ensures granule { (v c : CapValue) (granule : ℕ) → IsInRightsOf v c → OpensGranule v granule → OpensGranule c granule }
    ensures store { (v c : CapValue) (address : ℕ) → IsInRightsOf v c → OpensStore v address → OpensStore c address }
    ensures capability_store { (v c : CapValue) (granule : ℕ) → IsInRightsOf v c → OpensCapabilityStore v granule
        → OpensCapabilityStore c granule }
    ensures keeping { (v c : CapValue) (granule : ℕ) → IsInRightsOf v c → OpensKeeping v granule → OpensKeeping c granule }
    ensures byte { (v c : CapValue) (address : ℕ) → IsInRightsOf v c → OpensByte v address → OpensByte c address }
    ensures object_type { (v c : CapValue) (otype : ℕ) → IsInRightsOf v c → OpensType v otype → OpensType c otype }
{}

/// What a derivation gives with its tag is within the rights of its operand. Sealed it is the operand itself or a sentry, or has a
/// type that CSeal's authority may seal with.
pub fn derivations_give_no_rights()
    ensures other_address { (v : CapValue) (address : ℕ) → IsDerivedIfTagged (at_address v address) v }
    ensures other_bounds { (v : CapValue) (length : ℕ) → IsSound v → IsDerivedIfTagged (with_bounds v length) v }
    ensures fewer_permissions { (v : CapValue) (mask : ℕ) → IsDerivedIfTagged (and_perms v mask) v }
    ensures other_flag { (v : CapValue) (flag : Bool) → IsDerivedIfTagged (set_flags v flag) v }
    ensures entry { (v : CapValue) → IsDerivedIfTagged (seal_entry v) v }
    ensures type_alone { (v : CapValue) → is_sealed v ≡ false → IsDerivedIfTagged (opened v) v }
    ensures sealed { (v authority : CapValue) → is_tagged (seal v authority) ≡ true → IsSealedWith (seal v authority) v authority }
{}

/// Global comes of Global alone. CUnseal gives it only where the sealed value and the key have it; CSeal, CSealEntry (so a link too) and
/// what goes through a seal give the permissions that the value had. All else that is derived is within the rights of its operand.
pub fn global_comes_of_global_alone()
    ensures unsealed { (v key : CapValue) → is_tagged (unseal v key) ≡ true → permits (unseal v key) permission.Global ≡ true
        → (permits v permission.Global ≡ true) × (permits key permission.Global ≡ true) }
    ensures sealed { (v key : CapValue) (p : Permission) → is_tagged (seal v key) ≡ true → permits (seal v key) p ≡ permits v p }
    ensures entry { (v : CapValue) (p : Permission) → is_tagged (seal_entry v) ≡ true → permits (seal_entry v) p ≡ permits v p }
    ensures type_alone { (v : CapValue) (p : Permission) → is_tagged v ≡ true → permits (opened v) p ≡ permits v p }
{}
