//! How a text is cut into lines.
ghost use Rattle.std.specs.Prelude.{◌≡◌, ◌<◌, ◌==◌, [], ◌∷◌, length, drop, IfSome, IsTrue};
ghost use Rattle.std.specs.List.{slice_split};
ghost use Rattle.asm_lines.specs.Line.{line_meaning, RowFits};
ghost use Rattle.asm_lines.specs.Seen.{seen_line};
ghost use Rattle.asm_lines.specs.Bounded.{IsBoundedIfAny};
ghost use Rattle.assembler.specs.Modest.{is_modest_line};
ghost use Rattle.assembler.specs.Buildable.{is_paged_line};
ghost use Rattle.assembler.specs.Places.{lines_of};
ghost use Rattle.assembler.specs.Left.{lines_left};
ghost use Rattle.std.specs.Option.{option_map_or};

use asm_lines::{Parsed, parse_line};

/// What stands before the first line feed, and what stands after it, if there is one.
fn split_line(text: &[u8]) -> (&[u8], Option<&[u8]>)
    ensures split { slice_split (λ b. b == 10) text.now ≡ result.0.now ∷ option_map_or
        (λ rest. slice_split (λ b. b == 10) rest.now) result.1 [] }
    ensures shorter { IfSome result.1 (λ rest. length rest.now < length text.now) }
{
    for (end, byte) in text.iter().enumerate() {
        if *byte == b'\n' {
            return (&text[..end], Some(&text[end + 1..]));
        }
    }
    (text, None)
}

/// What stands after the first line, if there is a line more.
pub(crate) fn after_line(text: &[u8]) -> Option<&[u8]>
    ensures lines { lines_left result ≡ drop 1 (lines_of text.now) }
    ensures shorter { IfSome result (λ rest. length rest.now < length text.now) }
{
    split_line(text).1
}

/// What a line says.
pub(crate) fn read(line: &[u8]) -> Parsed<'_>
    ensures value { seen_line result ≡ line_meaning line.now }
    ensures modest { IsTrue (is_modest_line (seen_line result)) }
    ensures fits { RowFits (seen_line result) }
    ensures bounds { IsBoundedIfAny result.statement }
    ensures paged { IsTrue (is_paged_line (seen_line result)) }
{
    parse_line(line)
}

/// What the first line says, and what stands after its line feed, if there is one.
pub(crate) fn next_line(text: &[u8]) -> (Parsed<'_>, Option<&[u8]>)
    ensures lines { lines_of text.now ≡ seen_line result.0 ∷ lines_left result.1 }
    ensures modest { IsTrue (is_modest_line (seen_line result.0)) }
    ensures fits { RowFits (seen_line result.0) }
    ensures bounds { IsBoundedIfAny result.0.statement }
    ensures paged { IsTrue (is_paged_line (seen_line result.0)) }
    ensures shorter { IfSome result.1 (λ rest. length rest.now < length text.now) }
{
    let (line, rest) = split_line(text);
    (read(line), rest)
}
