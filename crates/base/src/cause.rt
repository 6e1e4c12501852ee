ghost use Rattle.std.specs.Prelude.{◌≡◌, ◌<◌};
ghost use Rattle.base.specs.Fault.{number_of, cheri_number_of};

/// Why an instruction traps: the exceptions of mcause (RISC-V privileged manual, mcause; UCAM-CL-TR-987, CHERI exception).
#[derive(Clone, Copy, Debug, PartialEq, Eq)]
pub enum Cause {
    /// A jump to an address that is no multiple of 4.
    MisalignedJump,
    /// A fetch from where no RAM is.
    FetchAccess,
    /// A word that is no row, or a system register that doesn't exist.
    IllegalInstruction,
    /// EBREAK.
    Breakpoint,
    /// A load from an address that is no multiple of its size.
    MisalignedLoad,
    /// A load from where nothing answers.
    LoadAccess,
    /// A store to an address that is no multiple of its size.
    MisalignedStore,
    /// A store to where nothing answers.
    StoreAccess,
    /// ECALL from machine mode.
    EnvironmentCall,
    /// A capability forbids it; mtval has the register and the CHERI cause.
    Cheri,
}

impl Cause {
    /// The number in mcause.
    #[inline]
    pub fn number(self) -> u64
        ensures { result ≡ number_of self }
    {
        match self {
            Cause::MisalignedJump => 0,
            Cause::FetchAccess => 1,
            Cause::IllegalInstruction => 2,
            Cause::Breakpoint => 3,
            Cause::MisalignedLoad => 4,
            Cause::LoadAccess => 5,
            Cause::MisalignedStore => 6,
            Cause::StoreAccess => 7,
            Cause::EnvironmentCall => 11,
            Cause::Cheri => 28,
        }
    }
}

/// What a capability forbids (UCAM-CL-TR-987, capability exception codes; the numbers are this profile's).
#[derive(Clone, Copy, Debug, PartialEq, Eq)]
pub enum CheriCause {
    /// Outside the bounds.
    Length,
    /// The value is no capability.
    Tag,
    /// Sealed, or sealed otherwise than the instruction needs.
    Seal,
    /// The object types of a pair differ.
    Type,
    /// Execute is missing, or the data of a pair has it.
    Execute,
    /// Load is missing.
    Load,
    /// Store is missing.
    Store,
    /// Store_Capability is missing.
    StoreCapability,
    /// Store_Local_Capability is missing, for a capability that is not Global.
    StoreLocalCapability,
    /// Access_System_Registers is missing.
    AccessSystemRegisters,
    /// CInvoke is missing.
    CInvoke,
}

impl CheriCause {
    /// The number in the low five bits of mtval.
    #[inline]
    pub fn number(self) -> u64
        ensures value { result ≡ cheri_number_of self }
        ensures range { result < 32 }
    {
        match self {
            CheriCause::Length => 0x01,
            CheriCause::Tag => 0x02,
            CheriCause::Seal => 0x03,
            CheriCause::Type => 0x04,
            CheriCause::Execute => 0x11,
            CheriCause::Load => 0x12,
            CheriCause::Store => 0x13,
            CheriCause::StoreCapability => 0x15,
            CheriCause::StoreLocalCapability => 0x16,
            CheriCause::AccessSystemRegisters => 0x18,
            CheriCause::CInvoke => 0x19,
        }
    }
}
