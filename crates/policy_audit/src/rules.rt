//! The lines of a policy's text that say its rules.

ghost use Rattle.std.specs.Prelude.{◌≡◌, IfOk, IsUtf8};
ghost use Rattle.policy_text.specs.Policy.{line_text};
ghost use Rattle.policy_audit.specs.Lines.{AreLinesOf};

use breach_texts::RuleLine;
use policy_text::line_text;
use std::alloc::{AllocError, Global};

/// A line of a policy's text by its number, as far as it is UTF-8.
pub fn rule_line(text: &[u8], number: u64) -> RuleLine<'_>
    ensures number { result.number ≡ number }
    ensures text { IsUtf8 (line_text text.now number) → result.text.now ≡ line_text text.now number }
{
    RuleLine {
        number,
        text: str::from_utf8(line_text(text, number)).unwrap_or(""),
    }
}

/// The lines of a policy's text by their numbers, which are those of its rules. `AllocError` is out of memory.
pub fn rule_lines<'t>(
    alloc: Global,
    text: &'t [u8],
    numbers: &[u64],
) -> Result<Vec<RuleLine<'t>>, AllocError>
    ensures { IfOk result (λ lines. AreLinesOf text.entry.now numbers.now lines.items) }
{
    let mut lines = Vec::new(alloc);
    for number in numbers {
        lines.push(rule_line(text, *number))?;
    }
    Ok(lines)
}
