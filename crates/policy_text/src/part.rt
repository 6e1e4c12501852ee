//! The parts of a rule by name.
ghost use Rattle.std.specs.Prelude.{◌≡◌};
ghost use Rattle.policy_text.specs.Policy.{part_named};

use asm_lines::is_word;

/// A part of a rule.
#[derive(Clone, Copy)]
pub(crate) enum Part {
    Store,
    Load,
    Execute,
    Keep,
    Enter,
    Transmit,
    Halt,
    Timer,
    System,
    Seal,
    Types,
    OrCaller,
}

/// The part of this name.
#[tactic(auto, unfolding(crate::specs::Policy::part_named))]
pub(crate) fn part_named(word: &[u8]) -> Option<Part>
    ensures { result ≡ part_named word.now }
{
    if is_word(word, "store") {
        Some(Part::Store)
    } else if is_word(word, "load") {
        Some(Part::Load)
    } else if is_word(word, "execute") {
        Some(Part::Execute)
    } else if is_word(word, "keep") {
        Some(Part::Keep)
    } else if is_word(word, "enter") {
        Some(Part::Enter)
    } else if is_word(word, "transmit") {
        Some(Part::Transmit)
    } else if is_word(word, "halt") {
        Some(Part::Halt)
    } else if is_word(word, "timer") {
        Some(Part::Timer)
    } else if is_word(word, "system") {
        Some(Part::System)
    } else if is_word(word, "seal") {
        Some(Part::Seal)
    } else if is_word(word, "types") {
        Some(Part::Types)
    } else if is_word(word, "or") {
        Some(Part::OrCaller)
    } else {
        None
    }
}
