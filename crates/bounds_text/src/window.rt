//! The columns that a picture cuts the window of bounds into.

ghost use Rattle.std.specs.Prelude.{◌≡◌, ◌≤◌, length};
ghost use Rattle.arrayvec.specs.ArrayString.{array_string_len};
ghost use Rattle.bounds_text.specs.Picture.{column_of, column_size, mark, picture};

use arrayvec::ArrayString;
use cap_bounds::Window;
use texts::Piece::Text;
use texts::fill;

/// How many addresses a column of the picture stands for.
#[tactic(auto, unfolding(crate::specs::Picture::column_size))]
pub(crate) fn column_size(window: Window) -> u64
    ensures value { result ≡ column_size window.e }
    ensures some { 256 ≤ result }
{
    (window.size() / 64) as u64
}

/// The column that an address falls in.
#[tactic(auto, unfolding(crate::specs::Picture::column_of))]
pub(crate) fn column_of(window: Window, address: u64) -> u64
    ensures { result ≡ column_of window.e window.base address }
{
    window.place(address) / column_size(window)
}

/// The columns that bounds take, and whether rounding added bytes at either end.
#[derive(Clone, Copy)]
pub(crate) struct Span {
    pub first: u64,
    pub last: u64,
    pub lowered: bool,
    pub raised: bool,
}

/// What stands in a column.
#[tactic(auto, unfolding(crate::specs::Picture::mark))]
fn mark(span: Span, column: u64) -> &'static str
    ensures text { result.now ≡ mark span column }
    ensures one { length result.now ≡ 1 }
{
    if column < span.first || span.last < column {
        "-"
    } else if span.first == span.last {
        "|"
    } else if column == span.first {
        if span.lowered { "<" } else { "[" }
    } else if column == span.last {
        if span.raised { ">" } else { "]" }
    } else {
        "="
    }
}

/// The columns.
#[tactic(auto, unfolding(crate::specs::Picture::picture))]
pub(crate) fn picture(span: Span) -> ArrayString<64>
    ensures text { result.bytes ≡ picture span }
    ensures length { array_string_len result ≡ 64 }
{
    let mut text = ArrayString::new();
    for column in 0..64 {
        fill(&mut text, &[Text(mark(span, column))]);
    }
    text
}
