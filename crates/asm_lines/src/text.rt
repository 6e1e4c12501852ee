//! How a line is cut: white space, the label, the mnemonic, operands between commas.
ghost use Rattle.std.specs.Prelude.{◌≡◌, ◌≤◌, ◌<◌, ◌+◌, ◌∷◌, take, drop, length, option_map, IfSome};
ghost use Rattle.std.specs.List.{prefix_len};
ghost use Rattle.asm_lines.specs.Text.{trimmed_start, trimmed_end, trimmed, is_name, is_dot, has_label, label_of, statement_text};
ghost use Rattle.asm_lines.specs.Text.{mnemonic_of, operands_of, pieces_between, pieces_left};
ghost use Rattle.asm_lines.specs.Class.{is_in};

use crate::class::{Class, begins_name, is_blank, run_length};

/// A text without the white space at its beginning.
pub fn trimmed_start(text: &[u8]) -> &[u8]
    ensures value { result.now ≡ trimmed_start text.now }
    ensures bound { length result.now ≤ length text.now }
{
    &text[run_length(text, Class::Blank)..]
}

/// A text without the white space at its end.
pub fn trimmed_end(text: &[u8]) -> &[u8]
    ensures value { result.now ≡ trimmed_end text.now }
    ensures bound { length result.now ≤ length text.now }
{
    let mut end = text.len();
    while end > 0 && is_blank(text[end - 1]) {
        end -= 1;
    }
    &text[..end]
}

/// A text without the white space around it.
pub(crate) fn trimmed(text: &[u8]) -> &[u8]
    ensures value { result.now ≡ trimmed text.now }
    ensures bound { length result.now ≤ length text.now }
{
    trimmed_end(trimmed_start(text))
}

/// What stands before the first byte that is not of a kind.
pub fn before(text: &[u8], class: Class) -> &[u8]
    ensures value { result.now ≡ take (prefix_len (is_in class) text.now) text.now }
    ensures bound { length result.now ≤ length text.now }
{
    &text[..run_length(text, class)]
}

/// What stands after the first byte that is not of a kind; nothing where there is none.
pub fn after(text: &[u8], class: Class) -> &[u8]
    ensures value { result.now ≡ drop (prefix_len (is_in class) text.now + 1) text.now }
    ensures bound { length result.now ≤ length text.now }
{
    let count = run_length(text, class);
    if count < text.len() {
        &text[count + 1..]
    } else {
        &[]
    }
}

/// Whether a text is a name: a letter, `_` or `.`, and then letters, digits, `_` and `.`.
pub fn is_name(text: &[u8]) -> bool
    ensures { result ≡ is_name text.now }
{
    match text {
        [first, rest @ ..] => begins_name(*first) && run_length(rest, Class::Name) == rest.len(),
        [] => false,
    }
}

/// Whether a name is that of the statement's own place: `.` alone.
pub fn is_dot(text: &[u8]) -> bool
    ensures { result ≡ is_dot text.now }
{
    text.len() == 1 && text[0] == b'.'
}

/// Whether a line begins with a label: a name other than `.`, and a colon at once.
#[tactic(auto, unfolding(crate::specs::Text::has_label))]
fn has_label(text: &[u8]) -> bool
    ensures { result ≡ has_label text.now }
{
    let name = before(text, Class::Name);
    let end = run_length(text, Class::Name);
    is_name(name) && !is_dot(name) && end < text.len() && text[end] == b':'
}

/// The name before a line's colon, if it begins with a label.
pub(crate) fn label(text: &[u8]) -> Option<&[u8]>
    ensures { option_map (λ t. t.now) result ≡ label_of text.now }
{
    has_label(text).then_some(before(text, Class::Name))
}

/// What follows a line's label, without white space before it.
pub(crate) fn statement_text(text: &[u8]) -> &[u8]
    ensures value { result.now ≡ statement_text text.now }
    ensures bound { length result.now ≤ length text.now }
{
    if has_label(text) {
        trimmed_start(after(text, Class::Not(b':')))
    } else {
        text
    }
}

/// A statement up to its first white space.
pub(crate) fn mnemonic(text: &[u8]) -> &[u8]
    ensures value { result.now ≡ mnemonic_of text.now }
    ensures bound { length result.now ≤ length text.now }
{
    before(text, Class::Solid)
}

/// What follows a statement's mnemonic.
pub(crate) fn operands(text: &[u8]) -> &[u8]
    ensures value { result.now ≡ operands_of text.now }
    ensures bound { length result.now ≤ length text.now }
{
    trimmed_start(after(text, Class::Solid))
}

/// The first operand between commas, without white space around it, and what follows its comma, if there is one.
pub fn split_piece<'a>(text: &'a [u8]) -> (&'a [u8], Option<&'a [u8]>)
    ensures pieces { pieces_between text.now ≡ result.0.now ∷ pieces_left (option_map (λ rest. rest.now) result.1) }
    ensures bound { length result.0.now ≤ length text.now }
    ensures shorter { IfSome result.1 (λ rest. length rest.now < length text.now) }
{
    let piece = trimmed(before(text, Class::Not(b',')));
    let end = run_length(text, Class::Not(b','));
    if end < text.len() {
        (piece, Some(&text[end + 1..]))
    } else {
        (piece, None)
    }
}
