//! A table of symbols: labels, and lines of sources.
ghost use Rattle.std.specs.Prelude.{◌≡◌, ◌≤◌, [], ◌++◌, None, true, false, IfOk, IfErr, IfSome, length, option_map};
ghost use Rattle.std.specs.List.{AllByRecursion};
ghost use Rattle.std.specs.Option.{option_copied};
ghost use Rattle.std.proofs.Props.{props};
ghost use Rattle.symbols.specs.Reads.{IsFaultOf};
ghost use Rattle.symbols.specs.Sources.{faulty_place, places_of};
ghost use Rattle.symbols.specs.Symbols.{address_in, address_of, faulty_line, labels_in, name_at, names_at, nearest, source_at, symbols_of};

use crate::sources::Sources;
use crate::symbol::Symbol;
use crate::table::{Names, SymbolsFault, Table, read_table};
use asm_lines::number_between;
use std::alloc::Global;
use std::marker::Model;

/// Labels, in the order of their lines, and lines of sources, in theirs.
#[derive(Drop, Debug)]
pub struct Symbols {
    labels: Table,
    sources: Sources,
    ghost labels_alone: { AllByRecursion (λ s. s.is_line ≡ false) labels } by { Prim.hlevel props },
    ghost lines_alone: { AllByRecursion (λ s. s.is_line ≡ true) sources } by { Prim.hlevel props },
}

impl Model for Symbols {
    ghost use Rattle.std.specs.Prelude.{List, ◌++◌};
    ghost use Rattle.symbols.specs.Symbols as spec;

    ghost Value = { List spec.Symbol };

    ghost view = { λ s. s.labels ++ s.sources };
}

/// Reads a table of symbols: lines of 16 hexadecimal digits, a blank and a label, or lines as nm prints them, with a letter and a blank
/// before the name. Of the latter those are passed over whose name is no label, or that have blanks in place of an address. The last line
/// may lack its line feed.
///
/// The fault is the first line that is not such a line, or that there is no memory.
pub fn read_symbols(alloc: Global, text: &[u8]) -> Result<Symbols, SymbolsFault>
    ensures correct { IfOk result (λ _. faulty_line text.now ≡ None) }
    ensures symbols { IfOk result (λ symbols. symbols ≡ symbols_of text.now) }
    ensures fault { IfErr result (IsFaultOf (faulty_line text.now)) }
{
    let labels = read_table(alloc, text)?;
    Ok(Symbols {
        labels,
        sources: Sources::new(alloc),
    })
}

impl Symbols {
    /// No symbols. It takes no memory; `alloc` is kept.
    pub fn new(alloc: Global) -> Self
        ensures { result ≡ [] }
    {
        Symbols {
            labels: Table::new(alloc),
            sources: Sources::new(alloc),
        }
    }

    /// The symbols and, after those that they have, the lines of sources of a table: lines of 16 hexadecimal digits, a blank and a place
    /// in a source, as `mem.s:41: csd t0, 24(cs4)`, or lines as `nm -l` prints them, with the place after a tab. Lines are passed over that
    /// name no place, with a colon in it, or that have blanks in place of an address. Of a place the first 240 bytes are kept, with a
    /// question mark for each that is not printable ASCII. The last line may lack its line feed.
    ///
    /// The fault is the first line that is not such a line, or that there is no memory.
    pub fn with_sources(self, alloc: Global, text: &[u8]) -> Result<Self, SymbolsFault>
        ensures correct { IfOk result (λ _. faulty_place text.now ≡ None) }
        ensures symbols { IfOk result (λ symbols. symbols ≡ self ++ places_of text.now) }
        ensures fault { IfErr result (IsFaultOf (faulty_place text.now)) }
    {
        let Symbols { labels, sources } = self;
        let sources = sources.read(alloc, text)?;
        Ok(Symbols { labels, sources })
    }

    /// Whether there is neither a label nor a line.
    pub fn is_empty(&self) -> bool
        ensures { result ≡ true → self.now ≡ [] }
    {
        self.labels.entries().is_empty() && self.sources.is_empty()
    }

    /// The labels.
    pub fn entries(&self) -> &[Symbol]
        ensures { result.now ≡ labels_in self.now }
    {
        self.labels.entries()
    }

    /// The first name of an address.
    pub fn name_at(&self, address: u64) -> Option<&[u8]>
        ensures value { option_map (λ name. name.now) result ≡ name_at self.now address }
        ensures bound { IfSome result (λ name. length name.now ≤ 254) }
    {
        self.labels.name_at(address)
    }

    /// The names of an address, in the order of the symbols. It takes no memory.
    pub fn names_at(&self, address: u64) -> Names<'_>
        ensures { result ≡ names_at self.now address }
    {
        self.labels.names_at(address)
    }

    /// The first address of a name.
    pub fn address_of(&self, name: &[u8]) -> Option<u64>
        ensures { result ≡ address_of self.now name.now }
    {
        self.labels.address_of(name)
    }

    /// An address as it is written: a number of 64 bits, or else the first address of the label of that name.
    pub fn address_in(&self, text: &[u8]) -> Option<u64>
        ensures { result ≡ address_in self.now text.now }
    {
        match number_between(text, 0, u64::MAX) {
            Some(number) => Some(number),
            None => self.address_of(text),
        }
    }

    /// The symbol at an address or nearest below it; of several at one address the first.
    pub fn nearest(&self, address: u64) -> Option<&Symbol>
        ensures { option_copied result ≡ nearest self.now address }
    {
        self.labels.nearest(address)
    }

    /// The first line that places an instruction at an address: a place in a source of at most 240 bytes. It takes no memory.
    pub fn source_at(&self, address: u64) -> Option<&str>
        ensures value { option_map (λ text. text.now) result ≡ source_at self.now address }
        ensures bound { IfSome result (λ text. length text.now ≤ 240) }
    {
        self.sources.at(address)
    }
}
