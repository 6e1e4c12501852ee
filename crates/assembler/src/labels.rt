//! The labels of a text and what they are worth.
ghost use Rattle.std.specs.Prelude.{◌≡◌, [], Some, OnOk};
ghost use Rattle.assembler.specs.Places.{value_in, with_label};
ghost use Rattle.assembler.specs.Labels.{seen_entries};

use indexmap::IndexMap;
use std::alloc::{AllocError, Global};
use std::marker::Model;

/// The names that lines define, in order of definition, and the places of those lines.
#[derive(Drop, Debug)]
pub(crate) struct Labels {
    entries: IndexMap<Vec<u8>, u128>,
}

impl Model for Labels {
    ghost use Rattle.assembler.specs.Places.{Symbols};
    ghost use Rattle.assembler.specs.Labels.{seen_entries};

    ghost Value = { Symbols };

    ghost view = { λ l. seen_entries l.entries.entries };
}

impl Labels {
    /// No labels.
    pub(crate) fn new(alloc: Global) -> Self
        ensures { result ≡ [] }
    {
        Labels {
            entries: IndexMap::new(alloc),
        }
    }

    /// The value of a name, if a line defines it.
    pub(crate) fn value(&self, name: &[u8]) -> Option<u128>
        ensures { result ≡ value_in self.now name.now }
    {
        self.entries.get(name).copied()
    }

    /// Defines a name, unless it has a value.
    pub(crate) fn define(
        &mut self,
        alloc: Global,
        name: &[u8],
        place: u128,
    ) -> Result<(), AllocError>
        ensures { OnOk result (self.new ≡ with_label (Some name.now) place self.old) }
    {
        if self.value(name).is_none() {
            let name = Vec::from_slice(alloc, name)?;
            self.entries.insert(name, place)?;
        }
        Ok(())
    }

    /// The names and their values.
    pub(crate) fn entries(&self) -> &IndexMap<Vec<u8>, u128>
        ensures { seen_entries result.now.entries ≡ self.now }
    {
        &self.entries
    }
}
