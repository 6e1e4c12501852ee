//! The text of a request: what CSetBounds makes of root.

ghost use Rattle.std.specs.Prelude.{◌≡◌, ◌≤◌, ◌++◌, true};
ghost use Rattle.arrayvec.specs.ArrayString.{array_string_len};
ghost use Rattle.bounds_text.specs.BoundsText.{address_line, bounds_text as whole_text};
ghost use Rattle.bounds_text.specs.BoundsText.{request_lines, span_of, window_lines};

use crate::either;
use crate::request::Request;
use crate::window::{Span, column_of, column_size, picture};
use arrayvec::ArrayString;
use cap_bounds::{CapRep, is_exact};
use cap_format::CapWord;
use cap_insns::{alignment_mask, representable_length};
use texts::{fill, pieces, text};

impl Request {
    /// The lines of every request.
    #[tactic(auto, unfolding(crate::specs::BoundsText::request_lines), using(crate::proofs::SetBounds::base_low))]
    fn lines(self) -> crate::Text
        ensures text { result.bytes ≡ request_lines self.base self.length }
        ensures within { array_string_len result ≤ 720 }
    {
        let refused = "\ntag      0, as the request ends past 2^64\n";
        let exact = is_exact(self.base, self.length);
        let stored = self.logical ^ CapWord::NULL.logical();
        text(&pieces![
            "request  " Address(self.base) " " Hexadecimal(17, self.end()) " length " Decimal(self.length)
            Text(either(self.tag, "\ntag      1\n", refused))
            Text(either(exact, "exact    yes\n", "exact    no\n"))
            "bounds   " Address(self.window.base) " " Hexadecimal(17, self.top)
            "\nadded    " Decimal(self.base - self.window.base) " below, " Decimal(self.added_above())
            " above\ngranule  " Decimal(self.granule())
            "\ncrrl     " Address(representable_length(self.length))
            "\ncram     " Address(alignment_mask(self.length))
            "\nword     " Hexadecimal(16, stored) " " Hexadecimal(16, stored >> 64) "\n"
        ])
    }

    /// The columns that the bounds take.
    #[tactic(auto, using(crate::proofs::SetBounds::top_whole))]
    fn span(self) -> Span
        requires { self.tag ≡ true }
        ensures { result ≡ span_of self.base self.length }
    {
        let low = self.window.base;
        let last = low.max(self.top.saturating_sub(1) as u64);
        Span {
            first: column_of(self.window, low),
            last: column_of(self.window, last),
            lowered: low < self.base,
            raised: self.end() < self.top,
        }
    }

    /// The line of an address, if one is asked for.
    fn address_line(self, address: Option<u64>) -> ArrayString<45>
        requires { self.tag ≡ true }
        ensures text { result.bytes ≡ address_line self.base self.length address }
        ensures within { array_string_len result ≤ 45 }
    {
        match address {
            Some(address) => text(
                &pieces!["address  " Address(address) " " Text(self.standing(address)) "\n"],
            ),
            None => ArrayString::new(),
        }
    }

    /// Appends the lines of its window.
    #[tactic(auto, unfolding(crate::specs::BoundsText::window_lines))]
    fn append_window(self, text: &mut crate::Text, address: Option<u64>)
        requires tagged { self.tag ≡ true }
        requires room { array_string_len text.old ≤ 720 }
        ensures { text.new.bytes ≡ text.old.bytes ++ window_lines self.base self.length address }
    {
        let window = self.window;
        let line = self.address_line(address);
        let ends = pieces![
            "window   " Address(window.first()) " " Address(window.last()) "\n" Text(line.as_str())
        ];
        fill(text, &ends);
        let columns = picture(self.span());
        let picture = pieces![
            "column   " Decimal(column_size(window)) " bytes\npicture  " Text(columns.as_str()) "\n"
        ];
        fill(text, &picture);
    }
}

/// What setting these bounds gives, as a text: what CSetBounds makes of root at `base` and `length` bytes.
///
/// Its lines are the request; whether the result is a capability; whether the bounds are exact; the rounded bounds, how many bytes
/// rounding added below and above, and the granule; CRRL and CRAM of the length; and the halves of the result's word as it lies in
/// memory. Where the result is a capability the window follows, where `address` lies if there is one, and the picture.
///
/// A request that ends past `2^64` gives no capability, and the text ends with the word. It takes no memory, and nothing is refused.
#[tactic(auto, unfolding(crate::specs::BoundsText::bounds_text))]
pub fn bounds_text<C: CapRep>(base: u64, length: u64, address: Option<u64>) -> crate::Text
    ensures { result.bytes ≡ whole_text base length address }
{
    let request = Request::of::<C>(base, length);
    let mut text = request.lines();
    if request.tag {
        request.append_window(&mut text, address);
    }
    text
}
