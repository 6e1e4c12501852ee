//! Where a rule stopped a run, as lines and as an object.
ghost use Rattle.std.specs.Prelude.{◌≡◌, ◌<◌, ◌++◌, length, IfOk, OnOk, string_bytes};
ghost use Rattle.reach.specs.Reach.{members_in};
ghost use Rattle.breach_texts.specs.Object.{refused_object};
ghost use Rattle.breach_texts.specs.Text.{refused_lines};

use crate::breach::{RuleLine, put_breach};
use crate::object::put_breach_fields;
use cap_bounds::CapRep;
use explain::{Standing, put_standing, put_standing_fields};
use machine::Machine;
use objects::{begin, finish};
use policy::Refused;
use reach::Reach;
use std::alloc::{AllocError, Global};
use symbols::Symbols;
use texts::Piece::Text;
use texts::append;

/// The lines for standard error that say where a run ended that a rule stopped: how many steps were done, where PCC is, and what breaks
/// the rule.
///
/// # Errors
///
/// Out of memory.
#[tactic(auto, unfolding(crate::specs::Text::refused_lines))]
pub fn refused_lines<C: CapRep>(
    alloc: Global,
    machine: &Machine<C>,
    symbols: &Symbols,
    rule: RuleLine<'_>,
    refused: Refused,
    steps: u64,
) -> Result<String, AllocError>
    requires { refused.member < length (members_in machine.now) }
    ensures { IfOk result (λ text. string_bytes text
        ≡ refused_lines symbols.now rule.entry.number rule.entry.text.now refused steps machine.now) }
{
    let reach = Reach::of(alloc, machine.hart())?;
    let mut text = String::new(alloc);
    put_standing(&mut text, symbols, machine.hart(), steps)?;
    append(&mut text, &[Text("\ncherisim: ")])?;
    put_breach(
        &mut text,
        alloc,
        symbols,
        reach.members(),
        rule,
        refused.ban,
        refused.member,
    )?;
    Ok(text)
}

/// The line of an object that says where a run ended that a rule stopped, of the same values as `refused_lines`.
///
/// # Errors
///
/// Out of memory.
pub fn refused_object<C: CapRep>(
    alloc: Global,
    machine: &Machine<C>,
    symbols: &Symbols,
    rule: RuleLine<'_>,
    refused: Refused,
    steps: u64,
) -> Result<String, AllocError>
    requires { refused.member < length (members_in machine.now) }
    ensures { IfOk result (λ line. string_bytes line
        ≡ refused_object symbols.now rule.entry.number rule.entry.text.now refused steps machine.now) }
{
    let reach = Reach::of(alloc, machine.hart())?;
    let mut object = begin(alloc)?;
    let standing = Standing {
        status: 1,
        halted: None,
        steps,
    };
    put_standing_fields(&mut object, symbols, machine.hart(), standing)?;
    put_breach_fields(
        &mut object,
        alloc,
        symbols,
        reach.members(),
        rule,
        refused.ban,
        refused.member,
    )?;
    finish(object)
}
