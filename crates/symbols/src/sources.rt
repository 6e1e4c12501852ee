//! Lines of sources: reading a table of them, and which one places the instruction at an address.
ghost use Rattle.std.specs.Prelude.{◌≡◌, ◌+◌, ◌-◌, ◌<◌, ◌≤◌, [], ◌∷◌, ◌++◌, None, Some, true, IfOk, IfErr, IfSome, IsTrue, OnOk};
ghost use Rattle.std.specs.Prelude.{length, map, option_map, slice_get, take};
ghost use Rattle.std.specs.Option.{option_copied};
ghost use Rattle.std.proofs.Props.{props};
ghost use Rattle.symbols.specs.Places.{IsPlacing};
ghost use Rattle.symbols.specs.Reads.{IsFaultOf};
ghost use Rattle.symbols.specs.Sources.{after_tabs, faulty_place, is_place, is_place_line, is_shown, place_in, places_in, places_of};
ghost use Rattle.symbols.specs.Sources.{shown_byte, shown_place, source_line};
ghost use Rattle.symbols.specs.Symbols.{name_among};

use crate::lines::{address, has_address, lacks_address, split_line};
use crate::table::SymbolsFault;
use std::alloc::{AllocError, Global};
use std::collections::BTreeMap;
use std::marker::Model;

/// How many bytes of a place are kept.
const MOST_SHOWN: usize = 240;

/// A line of a source, and the address of an instruction that it places.
#[derive(Drop, Debug)]
pub(crate) struct SourceLine {
    address: u64,
    text: Vec<u8>,
    ghost shown: { IsTrue (is_shown text.items) },
}

impl Model for SourceLine {
    ghost use Rattle.std.specs.Prelude.{true};
    ghost use Rattle.symbols.specs.Symbols as spec;

    ghost Value = { spec.Symbol };

    ghost view = { λ s. record { address = s.address; name = s.text.items; is_line = true } };
}

impl SourceLine {
    /// The address.
    fn address(&self) -> u64
        ensures { result ≡ self.now.address }
    {
        self.address
    }

    /// The place in the source.
    #[tactic(auto, unfolding(crate::specs::Sources::is_shown))]
    fn text(&self) -> &str
        ensures value { result.now ≡ self.now.name }
        ensures bound { length result.now ≤ 240 }
    {
        match str::from_utf8(&self.text) {
            Ok(text) => text,
            Err(_) => unreachable!(),
        }
    }
}

/// What stands after the last tab of a text, or the whole text.
fn after_tabs(text: &[u8]) -> &[u8]
    ensures { result.now ≡ after_tabs text.now text.now }
{
    let mut found = text;
    let mut rest = text;
    while let Some((byte, after)) = rest.split_first() {
        rest = after;
        if *byte == b'\t' {
            found = after;
        }
    }
    found
}

/// The place that a line names.
#[tactic(auto, unfolding(crate::specs::Sources::place_in))]
fn place_in(line: &[u8]) -> &[u8]
    ensures { result.now ≡ place_in line.now }
{
    after_tabs(line.get(17..).unwrap_or_default())
}

/// Whether a line names a place.
#[tactic(auto, unfolding(crate::specs::Sources::is_place))]
fn is_place(line: &[u8]) -> bool
    ensures { result ≡ is_place line.now }
{
    has_address(line) && place_in(line).contains(&b':')
}

/// Whether a line is one of a table of lines of sources.
#[tactic(auto, unfolding(crate::specs::Sources::is_place_line))]
fn is_place_line(line: &[u8]) -> bool
    ensures { result ≡ is_place_line line.now }
{
    has_address(line) || lacks_address(line)
}

/// A byte as it is shown.
fn shown_byte(byte: u8) -> u8
    ensures { result ≡ shown_byte byte }
{
    if 32 <= byte && byte <= 126 {
        byte
    } else {
        b'?'
    }
}

/// The bytes of a place that are kept.
fn kept(place: &[u8]) -> &[u8]
    ensures { result.now ≡ take 240 place.now }
{
    match place.get(..MOST_SHOWN) {
        Some(front) => front,
        None => place,
    }
}

/// What is shown of a place.
fn shown_place(alloc: Global, place: &[u8]) -> Result<Vec<u8>, AllocError>
    ensures { IfOk result (λ shown. shown.items ≡ shown_place place.now) }
{
    let mut shown = Vec::new(alloc);
    for byte in kept(place) {
        shown.push(shown_byte(*byte))?;
    }
    Ok(shown)
}

/// Appends the line of a source that a line names, if it names one.
#[tactic(auto, unfolding(crate::specs::Sources::place_of))]
fn push_place(alloc: Global, lines: &mut Vec<SourceLine>, line: &[u8]) -> Result<(), AllocError>
    ensures { OnOk result (lines.new.items ≡ lines.old.items ++ places_in (line.now ∷ [])) }
{
    if !is_place(line) {
        return Ok(());
    }
    let address = address(line);
    let text = shown_place(alloc, place_in(line))?;
    lines.push(SourceLine { address, text })?;
    Ok(())
}

/// Where the lines stand, by their addresses.
fn places_of(alloc: Global, lines: &[SourceLine]) -> Result<BTreeMap<u64, usize>, AllocError>
    ensures { IfOk result (λ places. IsPlacing places lines.now) }
{
    let mut places = BTreeMap::new(alloc);
    let mut index = lines.len();
    while index > 0 {
        index -= 1;
        let _ = places.insert(lines[index].address(), lines.len() - index)?;
    }
    Ok(places)
}

/// The line from which on so many stand.
fn from_end(lines: &[SourceLine], left: usize) -> Option<&SourceLine>
    ensures { option_copied result ≡ slice_get lines.now (length lines.now - left) }
{
    lines.get(lines.len().saturating_sub(left))
}

/// Lines of sources, in the order of their table.
#[derive(Drop, Debug)]
pub(crate) struct Sources {
    lines: Vec<SourceLine>,
    /// Of each address that has a line how many lines stand from its first one on, that one among them.
    places: BTreeMap<u64, usize>,
    ghost placed: { IsPlacing places lines.items } by { Prim.hlevel props },
}

impl Model for Sources {
    ghost use Rattle.std.specs.Prelude.{List};
    ghost use Rattle.symbols.specs.Symbols as spec;

    ghost Value = { List spec.Symbol };

    ghost view = { λ s. s.lines.items };
}

impl Sources {
    /// No lines. It takes no memory; `alloc` is kept.
    pub(crate) fn new(alloc: Global) -> Self
        ensures { result ≡ [] }
    {
        Sources {
            lines: Vec::new(alloc),
            places: BTreeMap::new(alloc),
        }
    }

    /// Whether there are none.
    pub(crate) fn is_empty(&self) -> bool
        ensures { result ≡ true → self.now ≡ [] }
    {
        self.lines.is_empty()
    }

    /// The lines, and after them those of a text.
    pub(crate) fn read(self, alloc: Global, text: &[u8]) -> Result<Self, SymbolsFault>
        ensures correct { IfOk result (λ _. faulty_place text.now ≡ None) }
        ensures lines { IfOk result (λ sources. sources ≡ self ++ places_of text.now) }
        ensures fault { IfErr result (IsFaultOf (faulty_place text.now)) }
    {
        let mut lines = self.lines;
        let mut number: u64 = 1;
        let mut rest = text;
        while !rest.is_empty() {
            let (line, after) = split_line(rest);
            if !is_place_line(line) {
                return Err(SymbolsFault::Line(number));
            }
            push_place(alloc, &mut lines, line)?;
            number += 1;
            rest = after;
        }
        let places = places_of(alloc, &lines)?;
        Ok(Sources { lines, places })
    }

    /// The first line of an address.
    fn line_at(&self, address: u64) -> Option<&SourceLine>
        ensures { option_map (λ line. line.name) (option_copied result) ≡ name_among self.now address }
    {
        match self.places.get(&address) {
            Some(left) => from_end(&self.lines, *left),
            None => None,
        }
    }

    /// The place in the source of the first line of an address.
    pub(crate) fn at(&self, address: u64) -> Option<&str>
        ensures value { option_map (λ text. text.now) result ≡ name_among self.now address }
        ensures bound { IfSome result (λ text. length text.now ≤ 240) }
    {
        match self.line_at(address) {
            Some(line) => Some(line.text()),
            None => None,
        }
    }
}
