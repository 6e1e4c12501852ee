//! Every run by a policy: whether each keeps to it.

ghost use Rattle.std.specs.Prelude.{◌≡◌, ◌⊎◌, ◌≤◌, ◌<◌, None, List, ℕ, IfOk, IfErr, IfSome, length, take, string_bytes};
ghost use Rattle.policy.specs.Terms.{terms_of};
ghost use Rattle.every_run.specs.Opens.{EveryRunKeepsTo, IsHolds};
ghost use Rattle.cherisim_c.specs.Policies.{IsProof, IsProofOf};
ghost use Rattle.cherisim_c.specs.Refusals.{IsTextsRefusal, IsRefusal};
ghost use Rattle.cherisim_c.specs.Status.{full, no_machine};

use crate::asking::copy;
use crate::handle::Handle;
use crate::policed::{Texts, read_labelled};
use crate::refusal::Refusal;
use crate::status::NO_MACHINE;
use every_run::{Verdict, prove};
use every_run_texts::put_verdict;
use machine::Machine;
use policy_text::Policy;
use std::alloc::{AllocError, Global};
use word_cap::WordCap;

/// What a proof comes to: whether it was found, and what it tells.
#[derive(Drop)]
struct Proof {
    shown: bool,
    told: String,
}

/// What a proof comes to of the runs from a machine's state on, by a policy, after at most so many steps of the kernel's own code; the
/// machine stays as it is.
fn verdict_of(
    alloc: Global,
    machine: &Machine<WordCap>,
    policy: &Policy,
    steps: u64,
) -> Result<Verdict, AllocError>
    ensures { IfOk result (λ v. IsHolds v
        → EveryRunKeepsTo (terms_of policy.now.rules.items) policy.now.any.items machine.now) }
{
    let mut hart = machine.hart().try_clone(alloc)?;
    prove(alloc, &mut hart, &policy.any, &policy.rules, steps)
}

/// The same, and what is told of it.
fn proof_of(
    alloc: Global,
    machine: &Machine<WordCap>,
    read: &Texts,
    steps: u64,
) -> Result<Proof, AllocError>
    ensures { IfOk result (λ proof. IsProof read.now machine.now proof.shown (string_bytes proof.told)) }
{
    let policy = &read.policy;
    let verdict = verdict_of(alloc, machine, policy, steps)?;
    let mut told = String::new(alloc);
    put_verdict(
        &mut told,
        &read.symbols,
        &policy.any,
        &policy.lines,
        verdict,
    )?;
    Ok(Proof {
        shown: verdict.holds(),
        told,
    })
}

/// The same, where the texts are read first.
fn proved(
    alloc: Global,
    machine: &Machine<WordCap>,
    labels: &[u8],
    text: &[u8],
    steps: u64,
) -> Result<Proof, Refusal>
    ensures ok { IfOk result (λ proof. IsProofOf labels.now text.now machine.now proof.shown (string_bytes proof.told)) }
    ensures err { IfErr result (IsTextsRefusal labels.now text.now) }
{
    let read = read_labelled(alloc, labels, text)?;
    match proof_of(alloc, machine, &read, steps) {
        Ok(proof) => Ok(proof),
        Err(_) => Err(Refusal::Memory),
    }
}

/// Whether it is shown of every run of the machine from its state on that it keeps to a policy, whatever bytes lie in the policy's ranges
/// of any code; and what is told of that: so many bytes at the beginning of `found`. Where it is too short, its length is what it takes.
/// The kernel's own code is done for at most so many steps. Where a text is refused, its faulty line is written. The machine stays as it
/// is.
#[unsafe(no_mangle)]
pub extern "C" fn cherisim_prove(
    alloc: Global,
    machine: &mut Handle,
    text: &[u8],
    labels: &[u8],
    steps: u64,
    shown: &mut bool,
    found: &mut [u8],
    size: &mut u64,
    line: &mut u64,
) -> u32
    ensures state { machine.new.machine ≡ machine.old.machine }
    ensures closed { machine.old.machine ≡ None → (result ≡ no_machine) × (line.new ≡ line.old) }
    ensures same { 1 ≤ result → result < full → (shown.new ≡ shown.old) × (found.new ≡ found.old) × (size.new ≡ size.old) }
    ensures ok { IfSome machine.old.machine (λ s. result ≡ 0
        → IsProofOf labels.now text.now s shown.new (take size.new found.new)) }
    ensures few { IfSome machine.old.machine (λ s. result ≡ 0 → size.new ≤ length found.new) }
    ensures full { IfSome machine.old.machine (λ s. result ≡ full → (told : List ℕ)
        × IsProofOf labels.now text.now s shown.new told
        × (size.new ≡ length told) × (length found.old < size.new) × (found.new ≡ found.old)) }
    ensures only { IfSome machine.old.machine (λ s. (result ≡ 0) ⊎ ((result ≡ full)
        ⊎ IsRefusal (IsTextsRefusal labels.now text.now) line.new result)) }
    ensures no_line { (result ≡ 0) ⊎ (result ≡ full) → line.new ≡ line.old }
{
    match machine.take(alloc) {
        Some(held) => {
            let proof = proved(alloc, &held, labels, text, steps);
            machine.put(held);
            match proof {
                Ok(proof) => {
                    *shown = proof.shown;
                    copy(proof.told.as_str(), found, size)
                }
                Err(refusal) => refusal.report(line),
            }
        }
        None => NO_MACHINE,
    }
}
