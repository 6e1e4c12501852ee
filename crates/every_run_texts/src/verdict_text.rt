//! The lines of a verdict.
ghost use Rattle.std.specs.Prelude.{◌≡◌, ◌++◌, OnOk, codes, decimal, string_bytes};
ghost use Rattle.std.specs.Prelude.{slice_index};
ghost use Rattle.symbols.specs.Labels as labels;
ghost use Rattle.std.specs.List.{flat_map};
ghost use Rattle.every_run_texts.specs.Text.{any_line, holds_text, place_text, rule_text, why_text, verdict_text};
ghost use Rattle.breach_texts.specs.Text as spec;

use crate::place::append_place;
use breach_texts::ban_word;
use every_run::{Unshown, Verdict};
use policy::Ban;
use reach::Range;
use reached::Place;
use std::alloc::AllocError;
use symbols::{Symbols, labelled};
use texts::Piece::{Decimal, Hexadecimal, Text};
use texts::append;

/// The number of a rule's line.
fn line_of(lines: &[u64], rule: usize) -> u64
    ensures { result ≡ slice_index lines.now rule }
{
    match lines.get(rule) {
        Some(line) => *line,
        None => 0,
    }
}

/// Appends words, and an address with its label.
fn put_at(text: &mut String, symbols: &Symbols, words: &str, address: u64) -> Result<(), AllocError>
    ensures { OnOk result (string_bytes text.new ≡ string_bytes text.old ++ (words.now ++ labels.labelled symbols.now address)) }
{
    append(
        text,
        &[Text(words), Text(labelled(Some(symbols), address).as_str())],
    )
}

/// Appends words, and a place.
fn put_held(
    text: &mut String,
    symbols: &Symbols,
    words: &str,
    place: Place,
) -> Result<(), AllocError>
    ensures { OnOk result (string_bytes text.new ≡ string_bytes text.old ++ (words.now ++ place_text symbols.now place)) }
{
    append(text, &[Text(words)])?;
    append_place(text, symbols, place)
}

/// Appends a rule by the number of its line, and words.
fn append_rule(text: &mut String, lines: &[u64], rule: usize, words: &str) -> Result<(), AllocError>
    ensures { OnOk result (string_bytes text.new ≡ string_bytes text.old ++ (rule_text lines.now rule ++ words.now)) }
{
    append(
        text,
        &[Text("line "), Decimal(line_of(lines, rule)), Text(words)],
    )
}

/// Appends that a rule applies to the code of the image, and where.
fn append_applies(
    text: &mut String,
    symbols: &Symbols,
    lines: &[u64],
    rule: usize,
    pc: u64,
) -> Result<(), AllocError>
    ensures { OnOk result (string_bytes text.new ≡ string_bytes text.old
        ++ (rule_text lines.now rule ++ (codes ": applies at " ++ labels.labelled symbols.now pc))) }
{
    append(
        text,
        &[
            Text("line "),
            Decimal(line_of(lines, rule)),
            Text(": applies at "),
            Text(labelled(Some(symbols), pc).as_str()),
        ],
    )
}

/// Appends the part of a rule that a capability breaks, and where it stands.
fn append_breach(
    text: &mut String,
    symbols: &Symbols,
    ban: Ban,
    place: Place,
) -> Result<(), AllocError>
    ensures { OnOk result (string_bytes text.new
        ≡ string_bytes text.old ++ (spec.ban_word ban ++ (codes "\n  held  " ++ place_text symbols.now place))) }
{
    append(text, &[Text(ban_word(ban))])?;
    put_held(text, symbols, "\n  held  ", place)
}

/// Appends that more steps would be done.
fn append_steps(text: &mut String, most: u64) -> Result<(), AllocError>
    ensures { OnOk result (string_bytes text.new
        ≡ string_bytes text.old ++ (codes "more than " ++ (decimal most ++ codes " steps"))) }
{
    append(text, &[Text("more than "), Decimal(most), Text(" steps")])
}

/// Appends why it is not shown.
fn append_why(
    text: &mut String,
    symbols: &Symbols,
    lines: &[u64],
    why: Unshown,
) -> Result<(), AllocError>
    ensures { OnOk result (string_bytes text.new ≡ string_bytes text.old ++ why_text symbols.now lines.now why) }
{
    match why {
        Unshown::Lends { rule } => append_rule(text, lines, rule, ": or caller"),
        Unshown::UnknownCode { address } => put_at(text, symbols, "fetches any code at ", address),
        Unshown::UnknownData { address } => put_at(text, symbols, "loads any code at ", address),
        Unshown::Device { address } => put_at(text, symbols, "loads a device at ", address),
        Unshown::SystemRegister { pc } => put_at(text, symbols, "uses a system register at ", pc),
        Unshown::Interrupts { pc } => put_at(text, symbols, "interrupts are on at ", pc),
        Unshown::Halted { pc } => put_at(text, symbols, "halts at ", pc),
        Unshown::RuleApplies { rule, pc } => append_applies(text, symbols, lines, rule, pc),
        Unshown::MoreSteps { most } => append_steps(text, most),
        Unshown::TaggedCode { address } => put_at(text, symbols, "a tag stands at ", address),
        Unshown::ManyDoors => append(text, &[Text("too many doors")]),
        Unshown::Unfollowed { pc } => put_at(text, symbols, "isn't followed at ", pc),
        Unshown::Returns { place } => put_held(text, symbols, "returns\n  held  ", place),
        Unshown::OpensSystem { place } => put_held(text, symbols, "system\n  held  ", place),
        Unshown::MaySeal { place } => put_held(text, symbols, "seal\n  held  ", place),
        Unshown::Breaks { rule, ban, place } => {
            append_rule(text, lines, rule, ": ")?;
            append_breach(text, symbols, ban, place)
        }
    }
}

/// Appends the line of a range of any code: its first address with the label, and its end, which is not in it.
#[tactic(auto, unfolding(crate::specs::Text::any_line))]
fn append_any(text: &mut String, symbols: &Symbols, range: Range) -> Result<(), AllocError>
    ensures { OnOk result (string_bytes text.new ≡ string_bytes text.old ++ any_line symbols.now range) }
{
    append(
        text,
        &[
            Text("  with any code in "),
            Text(labelled(Some(symbols), range.from).as_str()),
            Text(" to "),
            Hexadecimal(17, range.to),
            Text("\n"),
        ],
    )
}

/// Appends the lines of ranges of any code.
fn append_ranges(text: &mut String, symbols: &Symbols, any: &[Range]) -> Result<(), AllocError>
    ensures { OnOk result (string_bytes text.new ≡ string_bytes text.old ++ flat_map (any_line symbols.now) any.now) }
{
    for range in any {
        append_any(text, symbols, *range)?;
    }
    Ok(())
}

/// Appends that every run keeps to the rules: of which runs that is said, and what it took.
fn append_holds(
    text: &mut String,
    symbols: &Symbols,
    any: &[Range],
    steps: u64,
    members: usize,
) -> Result<(), AllocError>
    ensures { OnOk result (string_bytes text.new ≡ string_bytes text.old ++ holds_text symbols.now any.now steps members) }
{
    append(
        text,
        &[Text("holds\n  of every run of this image, over any steps, ticks and bytes\n")],
    )?;
    append_ranges(text, symbols, any)?;
    append(
        text,
        &[
            Text("  steps "),
            Decimal(steps),
            Text(", capabilities "),
            Decimal(members as u64),
            Text("\n"),
        ],
    )
}

/// Appends the lines of a verdict about any code in these ranges, where each rule has the number of its line: that every run keeps to the
/// rules, or why that is not shown.
///
/// # Errors
///
/// Out of memory.
pub fn put_verdict(
    text: &mut String,
    symbols: &Symbols,
    any: &[Range],
    lines: &[u64],
    verdict: Verdict,
) -> Result<(), AllocError>
    ensures { OnOk result (string_bytes text.new
        ≡ string_bytes text.old ++ verdict_text symbols.now any.now lines.now verdict) }
{
    match verdict {
        Verdict::Holds { steps, members } => append_holds(text, symbols, any, steps, members),
        Verdict::Unshown(why) => {
            append(text, &[Text("not shown: ")])?;
            append_why(text, symbols, lines, why)?;
            append(text, &[Text("\n")])
        }
    }
}
