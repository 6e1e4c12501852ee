//! A step of a trace as an object.

ghost use Rattle.std.specs.Prelude.{◌≡◌, IfOk, string_bytes};
ghost use Rattle.steps.specs.Applying.{IsPlanned};
ghost use Rattle.steps.specs.Step.{step_fetched};
ghost use Rattle.explain.specs.TraceObject.{fetched_word, trace_object as object_of};

use crate::step_fields::{put_effect, put_instruction};
use cap_bounds::CapRep;
use hart::{Hart, Planned};
use objects::{Item, begin, finish, put};
use std::alloc::{AllocError, Global};
use steps::Fetched;
use symbols::Symbols;

/// The word that a step fetches, if it fetches one.
fn word_of(fetched: Fetched) -> Option<u32>
    ensures { result ≡ fetched_word fetched }
{
    match fetched {
        Fetched::Word(word, _) => Some(word),
        Fetched::Interrupt | Fetched::Fault => None,
    }
}

/// The line of an object that says the next step, which was planned, of a machine that is not halted, of the same values as `trace_line`:
/// the step's number, where PCC is, the word that is fetched and its text, what the step comes to, and the trap that it is. Word and text
/// are null where nothing is fetched, the trap where there is none. It changes nothing.
///
/// # Errors
///
/// Out of memory.
#[tactic(auto, using(objects::specs::ItemLaws::said_three))]
pub fn trace_object<C: CapRep>(
    alloc: Global,
    symbols: &Symbols,
    number: u64,
    hart: &Hart<C>,
    planned: &Planned<C>,
) -> Result<String, AllocError>
    requires planned { IsPlanned C.value planned.now.effect hart.now }
    requires fetched { planned.now.fetched ≡ step_fetched hart.now }
    ensures { IfOk result (λ line. string_bytes line ≡ object_of symbols.now number hart.now) }
{
    let mut object = begin(alloc)?;
    put(&mut object, &[Item::Number("step", number)])?;
    put_instruction(&mut object, symbols, hart, word_of(planned.fetched))?;
    put_effect(&mut object, symbols, &planned.effect)?;
    finish(object)
}
