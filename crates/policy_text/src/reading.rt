//! Policies from texts.
ghost use Rattle.std.specs.Prelude.{◌≡◌, ◌+◌, ◌≤◌, ◌^◌, Ok, IfOk, IfErr, IsOk, OnOk, length, vec_len};
ghost use Rattle.symbols.specs.Symbols.{lines_of};
ghost use Rattle.policy_text.specs.Policy.{any_code_of, policy_of, with_line};
ghost use Rattle.policy_text.specs.declared.line.Line.TheVariants as held;
ghost use Rattle.policy_text.specs.Seen.{ComesOf, IsFaultOf, read, seen, seen_line};

use crate::cut::uncommented;
use crate::fault::PolicyTextFault;
use crate::line::{Line, read_line};
use crate::ranges::Named;
use policy::Rule;
use reach::Range;
use std::alloc::{AllocError, Global};
use symbols::{Symbols, split_line};

/// Rules with the number of the line of each, and the ranges in which the code may be any.
#[derive(Debug, Drop)]
pub struct Policy {
    /// The rules, in order.
    pub rules: Vec<Rule>,
    /// The numbers of their lines, counted from 1.
    pub lines: Vec<u64>,
    /// The ranges of the lines `any code in RANGES`, in order.
    pub any: Vec<Range>,
}

/// Keeps what the line of this number says.
fn keep<'a>(
    definitions: &mut Vec<Named<'a>>,
    policy: &mut Policy,
    number: u64,
    said: Line<'a>,
) -> Result<(), AllocError>
    requires { vec_len policy.old.rules ≡ vec_len policy.old.lines }
    ensures said { OnOk result (read definitions.new.items policy.new
        ≡ with_line number (read definitions.old.items policy.old) (seen_line said.entry)) }
    ensures paired { OnOk result (vec_len policy.new.rules ≡ vec_len policy.new.lines) }
    ensures silent { said.entry ≡ held.Nothing → IsOk result }
{
    match said {
        Line::Nothing => {}
        Line::Definition(named) => definitions.push(named)?,
        Line::Rule(rule) => {
            policy.lines.push(number)?;
            policy.rules.push(rule)?;
        }
        Line::AnyCode(ranges) => policy.any.extend_from_slice(&ranges)?,
    }
    Ok(())
}

/// Reads a policy, with the addresses of labels from a table.
///
/// The fault is the first faulty line. Memory comes in its place where what was read, or is to be, can't grow: only where a line of the
/// text has a word before its comment, since nothing is asked of the allocator for the others.
pub fn read_policy(alloc: Global, text: &[u8], symbols: &Symbols) -> Result<Policy, PolicyTextFault>
    ensures ok { IfOk result (λ policy. policy_of symbols.now text.now ≡ Ok (seen policy)) }
    ensures paired { IfOk result (λ policy. vec_len policy.rules ≡ vec_len policy.lines) }
    ensures any { IfOk result (λ policy. policy.any.items ≡ any_code_of symbols.now text.now) }
    ensures err { IfErr result (IsFaultOf (policy_of symbols.now text.now)) }
    ensures room { IfErr result (ComesOf (lines_of text.now)) }
{
    let mut definitions = Vec::new(alloc);
    let mut policy = Policy {
        rules: Vec::new(alloc),
        lines: Vec::new(alloc),
        any: Vec::new(alloc),
    };
    let mut number: u64 = 1;
    let mut rest = text;
    while !rest.is_empty() {
        let (text, after) = split_line(rest);
        match read_line(alloc, symbols, &definitions, uncommented(text)) {
            Ok(said) => keep(&mut definitions, &mut policy, number, said)?,
            Err(fault) => return Err(fault.at(number)),
        }
        number += 1;
        rest = after;
    }
    Ok(policy)
}
