//! The lines that tell of a broken rule.
ghost use Rattle.std.specs.Prelude.{◌≡◌, ◌<◌, ◌++◌, length, OnOk, string_bytes};
ghost use Rattle.reached.specs.Chain.{AreInOrder};
ghost use Rattle.reached.specs.Order.{seen_members};
ghost use Rattle.breach_texts.specs.Text.{ban_word, breach_text, rule_lines};

use cap_bounds::CapRep;
use policy::Ban;
use reach_texts::put_held;
use reached::Member;
use std::alloc::{AllocError, Global};
use symbols::Symbols;
use texts::Piece::{Decimal, Text};
use texts::append;

/// A rule as it was written: the number of its line, counted from 1, and its text.
#[derive(Clone, Copy, Debug)]
pub struct RuleLine<'a> {
    /// The number of the line.
    pub number: u64,
    /// The rule, without a comment.
    pub text: &'a str,
}

/// The word for a part of a rule, as policies name it.
pub fn ban_word(ban: Ban) -> &'static str
    ensures { result.now ≡ ban_word ban }
{
    match ban {
        Ban::Store => "store",
        Ban::Load => "load",
        Ban::Execute => "execute",
        Ban::Keep => "keep",
        Ban::Enter => "enter",
        Ban::Transmit => "transmit",
        Ban::Halt => "halt",
        Ban::Timer => "timer",
        Ban::System => "system",
        Ban::Seal => "seal",
        Ban::Types => "types",
    }
}

/// Appends a rule, with the number of its line and the part that is broken.
fn append_rule(text: &mut String, number: u64, rule: &str, ban: Ban) -> Result<(), AllocError>
    ensures { OnOk result (string_bytes text.new ≡ string_bytes text.old ++ rule_lines number rule.now ban) }
{
    append(
        text,
        &[
            Text("policy: line "),
            Decimal(number),
            Text(": "),
            Text(ban_word(ban)),
            Text("\n  rule  "),
            Text(rule),
            Text("\n  held  "),
        ],
    )
}

/// Appends what breaks a rule: the number of its line and the part that is broken, the rule, and the member of a number, which breaks it,
/// with the places that lead to it.
///
/// # Errors
///
/// Out of memory.
#[tactic(auto, unfolding(crate::specs::Text::breach_text))]
pub fn put_breach<C: CapRep>(
    text: &mut String,
    alloc: Global,
    symbols: &Symbols,
    members: &[Member<C>],
    rule: RuleLine<'_>,
    ban: Ban,
    member: usize,
) -> Result<(), AllocError>
    requires inside { member < length members.now }
    requires order { AreInOrder members.now }
    ensures { OnOk result (string_bytes text.new ≡ string_bytes text.old
        ++ breach_text symbols.now (seen_members C.value members.now) rule.entry.number rule.entry.text.now ban member) }
{
    append_rule(text, rule.number, rule.text, ban)?;
    put_held(text, alloc, symbols, &[], members, member)?;
    append(text, &[Text("\n")])
}
