use base::{CAPABILITY_BYTES, Cause, CheriCause, Size};
use cap_bounds::CapRep;
use cap_rights::{Permission, permits};

/// What is stored where a capability may be.
#[derive(Clone, Copy, Debug, PartialEq, Eq)]
pub enum Stored {
    /// 128 bits without a tag.
    Untagged,
    /// A capability that is not Global.
    Local,
    /// A capability that is Global.
    Global,
}

impl Stored {
    ghost use Rattle.std.specs.Prelude.{◌≡◌};
    ghost use Rattle.cap_checks.specs.Access.{stored_of};

    /// Tells what a store of this value stores.
    #[inline]
    pub fn of<C: CapRep>(c: C) -> Stored
        ensures { result ≡ stored_of (C.value c) }
    {
        if !c.tag() {
            Stored::Untagged
        } else if permits(c, Permission::Global) {
            Stored::Global
        } else {
            Stored::Local
        }
    }
}

/// An access to memory.
#[derive(Clone, Copy, Debug, PartialEq, Eq)]
pub enum Access {
    /// A load of data.
    Load(Size),
    /// A store of data.
    Store(Size),
    /// A load of 16 bytes and their tag.
    LoadCapability,
    /// A store of 16 bytes and their tag.
    StoreCapability(Stored),
}

impl Access {
    ghost use Rattle.std.specs.Prelude.{◌≡◌, ◌<◌};
    ghost use Rattle.cap_checks.specs.Access.{width_of, needed, lacking, stores_capability, stores_local, misaligned};

    /// Gives the number of bytes that it moves: 1, 2, 4, 8 or 16.
    #[inline]
    pub fn width(self) -> u64
        ensures value { result ≡ width_of self }
        ensures positive { 0 < result }
    {
        match self {
            Access::Load(size) | Access::Store(size) => size.bytes(),
            Access::LoadCapability | Access::StoreCapability(_) => CAPABILITY_BYTES,
        }
    }

    /// Gives the permission that its authority needs, whatever it moves.
    #[inline]
    pub(crate) fn needed(self) -> Permission
        ensures { result ≡ needed self }
    {
        match self {
            Access::Load(_) | Access::LoadCapability => Permission::Load,
            Access::Store(_) | Access::StoreCapability(_) => Permission::Store,
        }
    }

    /// Gives the CHERI cause where its authority lacks that permission.
    #[inline]
    pub(crate) fn lacking(self) -> CheriCause
        ensures { result ≡ lacking self }
    {
        match self {
            Access::Load(_) | Access::LoadCapability => CheriCause::Load,
            Access::Store(_) | Access::StoreCapability(_) => CheriCause::Store,
        }
    }

    /// Tells whether it stores a tag.
    #[inline]
    pub(crate) fn stores_capability(self) -> bool
        ensures { result ≡ stores_capability self }
    {
        matches!(
            self,
            Access::StoreCapability(Stored::Local | Stored::Global)
        )
    }

    /// Tells whether it stores a capability that is not Global.
    #[inline]
    pub(crate) fn stores_local(self) -> bool
        ensures { result ≡ stores_local self }
    {
        matches!(self, Access::StoreCapability(Stored::Local))
    }

    /// Gives the RISC-V cause where the address is no multiple of the width.
    #[inline]
    pub(crate) fn misaligned(self) -> Cause
        ensures { result ≡ misaligned self }
    {
        match self {
            Access::Load(_) | Access::LoadCapability => Cause::MisalignedLoad,
            Access::Store(_) | Access::StoreCapability(_) => Cause::MisalignedStore,
        }
    }
}
