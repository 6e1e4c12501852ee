use breach_texts::RuleLine;
use symbols::Symbols;

/// How findings are reported.
#[derive(Clone, Copy)]
pub struct Report<'a> {
    /// The labels of addresses.
    pub symbols: &'a Symbols,
    /// The lines of the rules, each at its rule's place.
    pub lines: &'a [RuleLine<'a>],
    /// Whether as objects of JSON.
    pub json: bool,
}
