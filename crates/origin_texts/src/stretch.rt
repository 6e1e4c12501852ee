//! Stretches of links that are told alike.
ghost use Rattle.std.specs.Prelude.{◌≡◌, ◌++◌, [], ◌∷◌, List, OnOk, string_bytes, if◌then◌else◌};
ghost use Rattle.origin_texts.specs.Stretches as spec;
ghost use Rattle.origin_texts.specs.Stretches.{goes_on, stretch_text};
ghost use Rattle.origin_texts.specs.Held.{IsStretch, as_told, ended, met};

use crate::told::Told;
use std::alloc::{AllocError, Global};
use texts::Piece::{Decimal, Text};
use texts::append;

/// The most links of a stretch of which each has its line.
const SHORT: u64 = 3;

/// Links one after the other that are told alike, as far as they are known, the newest first.
#[derive(Drop)]
pub(crate) struct Stretch {
    /// How many.
    count: u64,
    /// The lines of the first three.
    lines: String,
    /// What is told of the newest.
    newest: Told,
    /// The line of the oldest.
    oldest: String,
}

/// Whether two links are told alike.
fn is_alike(told: &Told, other: &Told) -> bool
    ensures { result ≡ spec.is_alike (as_told told.now) (as_told other.now) }
{
    told.source.as_str() == other.source.as_str() && told.step.as_str() == other.step.as_str()
}

impl Stretch {
    /// No link.
    pub(crate) fn new(alloc: Global) -> Self
        ensures { IsStretch result [] }
    {
        Stretch {
            count: 0,
            lines: String::new(alloc),
            newest: Told {
                source: String::new(alloc),
                step: String::new(alloc),
                line: String::new(alloc),
            },
            oldest: String::new(alloc),
        }
    }

    /// Whether an older link, of which this is told, belongs to it.
    fn goes_on(&self, older: &Told) -> bool
        ensures { (links : List spec.Told) → IsStretch self.now links → result ≡ goes_on links (as_told older.now) }
    {
        self.count == 0 || is_alike(&self.newest, older)
    }

    /// Appends its text.
    pub(crate) fn put(&self, text: &mut String) -> Result<(), AllocError>
        ensures { OnOk result ((links : List spec.Told) → IsStretch self.now links
            → string_bytes text.new ≡ string_bytes text.old ++ stretch_text links) }
    {
        if self.count <= SHORT {
            return append(text, &[Text(self.lines.as_str())]);
        }
        append(
            text,
            &[
                Text(self.newest.line.as_str()),
                Text(self.newest.source.as_str()),
                Text(", "),
                Decimal(self.count - 2),
                Text(" times: "),
                Text(self.newest.step.as_str()),
                Text("\n"),
                Text(self.oldest.as_str()),
            ],
        )
    }

    /// Forgets its links.
    fn clear(&mut self)
        ensures { IsStretch self.new [] }
    {
        self.count = 0;
        self.lines.clear();
    }

    /// Takes in an older link.
    fn push(&mut self, older: Told) -> Result<(), AllocError>
        ensures { OnOk result ((links : List spec.Told) → IsStretch self.old links
            → IsStretch self.new (links ++ as_told older ∷ [])) }
    {
        let Some(count) = self.count.checked_add(1) else {
            return Err(AllocError);
        };
        if self.count < SHORT {
            append(&mut self.lines, &[Text(older.line.as_str())])?;
        }
        self.oldest.clear();
        append(&mut self.oldest, &[Text(older.line.as_str())])?;
        if self.count == 0 {
            self.newest = older;
        }
        self.count = count;
        Ok(())
    }

    /// Takes in an older link, or appends its text and begins with that link anew.
    pub(crate) fn meet(&mut self, text: &mut String, older: Told) -> Result<(), AllocError>
        ensures stretch { OnOk result ((links : List spec.Told) → IsStretch self.old links
            → IsStretch self.new (met links (as_told older))) }
        ensures text { OnOk result ((links : List spec.Told) → IsStretch self.old links
            → string_bytes text.new ≡ string_bytes text.old ++ ended links (as_told older)) }
    {
        if !self.goes_on(&older) {
            self.put(text)?;
            self.clear();
        }
        self.push(older)
    }
}
