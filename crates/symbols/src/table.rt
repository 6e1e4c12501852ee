//! A table of labels: reading one, and looking up in it.
ghost use Rattle.std.specs.Prelude.{◌≡◌, ◌-◌, ◌<◌, ◌≤◌, [], ◌∷◌, ◌++◌, None, Some, IfOk};
ghost use Rattle.std.specs.Prelude.{IfErr, IfNone, IfSome, OnOk, length, option_map, slice_get};
ghost use Rattle.std.specs.Option.{option_copied};
ghost use Rattle.std.proofs.Props.{props};
ghost use Rattle.symbols.specs.declared.table.SymbolsFault.TheVariants.{Memory};
ghost use Rattle.symbols.specs.Places.{IsPlacing, later_of, names_from, names_left};
ghost use Rattle.symbols.specs.Reads.{IsFaultOf};
ghost use Rattle.symbols.specs.Symbols.{address_among, faulty_line, name_among, names_among, nearest_among, symbols_in, symbols_of};

use crate::lines::{address, is_line, is_symbol, name, split_line};
use crate::symbol::Symbol;
use std::alloc::{AllocError, Global};
use std::collections::BTreeMap;
use std::marker::Model;

/// Why a table of symbols is not read.
#[derive(Clone, Copy, Debug, PartialEq, Eq)]
pub enum SymbolsFault {
    /// The first line that is not one of a table, counted from 1.
    Line(u64),
    /// There is no memory.
    Memory,
}

impl From<AllocError> for SymbolsFault {
    ghost from_gives = { λ _ f. f ≡ Memory };

    fn from(_error: AllocError) -> SymbolsFault {
        SymbolsFault::Memory
    }
}

/// Labels, in the order of their lines.
#[derive(Drop, Debug)]
pub(crate) struct Table {
    entries: Vec<Symbol>,
    /// Of each address that has a symbol how many symbols stand from its first one on, that one among them.
    places: BTreeMap<u64, usize>,
    /// Of each symbol, from the last one to the first, how many stand from the next one of its address on, if there is one.
    later: Vec<Option<usize>>,
    ghost placed: { IsPlacing places entries.items } by { Prim.hlevel props },
    ghost linked: { later.items ≡ later_of entries.items } by { Prim.hlevel props },
}

impl Model for Table {
    ghost use Rattle.std.specs.Prelude.{List};
    ghost use Rattle.symbols.specs.Symbols as spec;

    ghost Value = { List spec.Symbol };

    ghost view = { λ s. s.entries.items };
}

/// Appends the symbol of a line to others, if it says one.
#[tactic(auto, unfolding(crate::specs::Symbols::symbol_of), using(crate::proofs::LineLemmas::name_is_label))]
fn push_symbol(alloc: Global, entries: &mut Vec<Symbol>, line: &[u8]) -> Result<(), AllocError>
    ensures { OnOk result (entries.new.items ≡ entries.old.items ++ symbols_in (line.now ∷ [])) }
{
    if !is_symbol(line) {
        return Ok(());
    }
    let address = address(line);
    let name = Vec::from_slice(alloc, name(line))?;
    entries.push(Symbol { address, name })?;
    Ok(())
}

/// The labels of a text, or its first line that isn't one of a table.
pub(crate) fn read_table(alloc: Global, text: &[u8]) -> Result<Table, SymbolsFault>
    ensures correct { IfOk result (λ _. faulty_line text.now ≡ None) }
    ensures symbols { IfOk result (λ symbols. symbols ≡ symbols_of text.now) }
    ensures fault { IfErr result (IsFaultOf (faulty_line text.now)) }
{
    let mut entries = Vec::new(alloc);
    let mut number: u64 = 1;
    let mut rest = text;
    while !rest.is_empty() {
        let (line, after) = split_line(rest);
        if !is_line(line) {
            return Err(SymbolsFault::Line(number));
        }
        push_symbol(alloc, &mut entries, line)?;
        number += 1;
        rest = after;
    }
    Ok(Table::placed(alloc, entries)?)
}

/// The symbol from which on so many stand.
fn from_end(entries: &[Symbol], left: usize) -> Option<&Symbol>
    ensures { option_copied result ≡ slice_get entries.now (length entries.now - left) }
{
    entries.get(entries.len().saturating_sub(left))
}

/// What `later` says of the symbol from which on so many stand.
fn later_than(later: &[Option<usize>], left: usize) -> Option<Option<usize>>
    ensures some { IfSome result (λ next. (1 ≤ left) × (slice_get later.now (left - 1) ≡ Some next)) }
    ensures none { IfNone result (1 ≤ left → length later.now < left) }
{
    later.get(left.checked_sub(1)?).copied()
}

impl Table {
    /// No labels. It takes no memory; `alloc` is kept.
    pub(crate) fn new(alloc: Global) -> Self
        ensures { result ≡ [] }
    {
        Table {
            entries: Vec::new(alloc),
            places: BTreeMap::new(alloc),
            later: Vec::new(alloc),
        }
    }

    /// These symbols, each in its place.
    fn placed(alloc: Global, entries: Vec<Symbol>) -> Result<Self, AllocError>
        ensures { IfOk result (λ symbols. symbols ≡ entries.items) }
    {
        let mut places = BTreeMap::new(alloc);
        let mut later = Vec::new(alloc);
        let mut index = entries.len();
        while index > 0 {
            index -= 1;
            let next = places.insert(entries[index].address(), entries.len() - index)?;
            later.push(next)?;
        }
        Ok(Table {
            entries,
            places,
            later,
        })
    }

    /// The symbols.
    pub(crate) fn entries(&self) -> &[Symbol]
        ensures { result.now ≡ self.now }
    {
        &self.entries
    }

    /// The first name of an address.
    #[tactic(auto, using(crate::proofs::PlaceLemmas::first_name))]
    pub(crate) fn name_at(&self, address: u64) -> Option<&[u8]>
        ensures value { option_map (λ name. name.now) result ≡ name_among self.now address }
        ensures bound { IfSome result (λ name. length name.now ≤ 254) }
    {
        self.names_at(address).next()
    }

    /// The names of an address, in the order of the symbols. It takes no memory.
    pub(crate) fn names_at(&self, address: u64) -> Names<'_>
        ensures { result ≡ names_among self.now address }
    {
        Names {
            symbols: self,
            left: self.first_left(address),
        }
    }

    /// How many symbols stand from the first one of an address on, if it has one.
    fn first_left(&self, address: u64) -> Option<usize>
        ensures { names_left self.now result ≡ names_among self.now address }
    {
        self.places.get(&address).copied()
    }

    /// The symbol from which on so many stand, and where the next one of its address does.
    fn step(&self, left: usize) -> Option<(&Symbol, Option<usize>)>
        ensures some { IfSome result (λ found. names_from self.now left ≡ found.0.now.name ∷ names_left self.now found.1) }
        ensures none { IfNone result (names_from self.now left ≡ []) }
    {
        let next = later_than(&self.later, left)?;
        let symbol = from_end(&self.entries, left)?;
        Some((symbol, next))
    }

    /// The first address of a name.
    pub(crate) fn address_of(&self, name: &[u8]) -> Option<u64>
        ensures { result ≡ address_among self.now name.now }
    {
        for symbol in self.entries() {
            if symbol.name() == name {
                return Some(symbol.address());
            }
        }
        None
    }

    /// The symbol at an address or nearest below it; of several at one address the first.
    pub(crate) fn nearest(&self, address: u64) -> Option<&Symbol>
        ensures { option_copied result ≡ nearest_among self.now address }
    {
        match self.places.range(..=address).next_back() {
            Some((_, left)) => from_end(self.entries(), *left),
            None => None,
        }
    }
}

/// The names of an address that are still to come, in the table's order.
#[derive(Drop)]
pub struct Names<'a> {
    symbols: &'a Table,
    /// How many symbols stand from the next one's on, if one is to come.
    left: Option<usize>,
}

impl<'a> Model for Names<'a> {
    ghost use Rattle.std.specs.Prelude.{List, ℕ};
    ghost use Rattle.symbols.specs.Places as spec;

    ghost Value = { List (List ℕ) };

    ghost view = { λ n. spec.names_left n.symbols.now n.left };
}

impl<'a> Names<'a> {
    /// The next name, which has come from here on. It takes as long in a table of many symbols as in one of few.
    pub fn next(&mut self) -> Option<&'a [u8]>
        ensures some { IfSome result (λ name. self.old ≡ name.now ∷ self.new) }
        ensures bound { IfSome result (λ name. length name.now ≤ 254) }
        ensures none { IfNone result (self.old ≡ []) }
    {
        let (symbol, next) = self.symbols.step(self.left?)?;
        self.left = next;
        Some(symbol.name())
    }
}
