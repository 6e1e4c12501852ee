//! The first member that opens something.
ghost use Rattle.std.specs.Prelude.{IfNone, IfSome};
ghost use Rattle.cap_rights.specs.Rights.{OpensSystem, OpensType};
ghost use Rattle.reached.specs.Links.{values};
ghost use Rattle.reach.specs.First.{IsFirst, HoldsOfNone};
ghost use Rattle.reach.specs.Opens.{OpensSome, KeepsSome, OpensUnsealing, IsSealedAs};
ghost use Rattle.reach.specs.Questions.{Answers};

use crate::question::{Question, answers};
use crate::reach::Reach;
use crate::right::Right;
use cap_bounds::CapRep;
use cap_rights::OType;
use reached::Member;

/// The first member that answers a question with yes.
fn first<C: CapRep>(members: &[Member<C>], question: &Question) -> Option<usize>
    ensures some { IfSome result (IsFirst (Answers question.now) (values C.value members.now)) }
    ensures none { IfNone result (HoldsOfNone (Answers question.now) (values C.value members.now)) }
{
    for (place, member) in members.iter().enumerate() {
        if answers(member.cap, question) {
            return Some(place);
        }
    }
    None
}

impl<C: CapRep> Reach<C> {
    /// The first member through which one of the `length` bytes from an address may be stored, or `None` where there is none.
    ///
    /// Bytes are numbered without an end: past address 2^64 - 1 they go on.
    pub fn first_store(&self, address: u64, length: u64) -> Option<usize>
        ensures some { IfSome result (IsFirst (λ v. OpensSome Right.Store v address length) (values C.value self.now)) }
        ensures none { IfNone result (HoldsOfNone (λ v. OpensSome Right.Store v address length) (values C.value self.now)) }
    {
        first(
            self.members(),
            &Question::Opens(Right::Store, address, length),
        )
    }

    /// The first member through which one of the `length` bytes from an address may be loaded, or `None` where there is none.
    ///
    /// Bytes are numbered without an end: past address 2^64 - 1 they go on.
    pub fn first_load(&self, address: u64, length: u64) -> Option<usize>
        ensures some { IfSome result (IsFirst (λ v. OpensSome Right.Load v address length) (values C.value self.now)) }
        ensures none { IfNone result (HoldsOfNone (λ v. OpensSome Right.Load v address length) (values C.value self.now)) }
    {
        first(
            self.members(),
            &Question::Opens(Right::Load, address, length),
        )
    }

    /// The first member through which one of the `length` bytes from an address may be fetched as code, or `None` where there is none.
    ///
    /// Bytes are numbered without an end: past address 2^64 - 1 they go on.
    pub fn first_execute(&self, address: u64, length: u64) -> Option<usize>
        ensures some { IfSome result (IsFirst (λ v. OpensSome Right.Execute v address length) (values C.value self.now)) }
        ensures none { IfNone result (HoldsOfNone (λ v. OpensSome Right.Execute v address length) (values C.value self.now)) }
    {
        first(
            self.members(),
            &Question::Opens(Right::Execute, address, length),
        )
    }

    /// The first member through which what is lent without Global may be kept in a granule with one of the `length` bytes from an address,
    /// or `None` where there is none.
    ///
    /// Bytes are numbered without an end: past address 2^64 - 1 they go on.
    pub fn first_keep(&self, address: u64, length: u64) -> Option<usize>
        ensures some { IfSome result (IsFirst (λ v. KeepsSome v address length) (values C.value self.now)) }
        ensures none { IfNone result (HoldsOfNone (λ v. KeepsSome v address length) (values C.value self.now)) }
    {
        first(self.members(), &Question::Keeps(address, length))
    }

    /// The first member that opens the system registers: unsealed, with Execute and Access_System_Registers.
    pub fn opens_system(&self) -> Option<usize>
        ensures some { IfSome result (IsFirst OpensSystem (values C.value self.now)) }
        ensures none { IfNone result (HoldsOfNone OpensSystem (values C.value self.now)) }
    {
        first(self.members(), &Question::System)
    }

    /// The first member through which values may be sealed with the type.
    pub fn may_seal(&self, otype: OType) -> Option<usize>
        ensures some { IfSome result (IsFirst (λ v. OpensType v otype) (values C.value self.now)) }
        ensures none { IfNone result (HoldsOfNone (λ v. OpensType v otype) (values C.value self.now)) }
    {
        first(self.members(), &Question::Seals(otype))
    }

    /// The first member through which values with the type may be unsealed.
    pub fn may_unseal(&self, otype: OType) -> Option<usize>
        ensures some { IfSome result (IsFirst (λ v. OpensUnsealing v otype) (values C.value self.now)) }
        ensures none { IfNone result (HoldsOfNone (λ v. OpensUnsealing v otype) (values C.value self.now)) }
    {
        first(self.members(), &Question::Unseals(otype))
    }

    /// The first member that is sealed with the type.
    pub fn holds_sealed(&self, otype: OType) -> Option<usize>
        ensures some { IfSome result (IsFirst (λ v. IsSealedAs v otype) (values C.value self.now)) }
        ensures none { IfNone result (HoldsOfNone (λ v. IsSealedAs v otype) (values C.value self.now)) }
    {
        first(self.members(), &Question::IsSealed(otype))
    }
}
