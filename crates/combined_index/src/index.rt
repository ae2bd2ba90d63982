//! The index that the decisions of a link are made by.
ghost use Rattle.std.specs.Prelude.{◌≡◌, ◌<◌, length, option_copied, IfOk, IfSome};
ghost use Rattle.combined_index.specs.Combined.{Combined, IsIndex, IsWithin, number_of, prevailing_of};

use crate::definition::Definition;
use crate::places::{DefinitionPlace, places_of};
use crate::plain::plain_numbers;
use indexmap::IndexMap;
use ir_tree::{Rows, Symbol};
use std::alloc::{AllocError, Global};
use std::marker::Model;

/// The combined index of a link: its symbols, which go by number, and the definitions of each
/// module. Contracts see these two lists.
#[derive(Drop)]
pub struct Index {
    symbols: Vec<Symbol>,
    modules: Vec<Rows<Definition>>,
    /// Where the definition of each symbol that prevails stands.
    places: Vec<Option<DefinitionPlace>>,
    /// The numbers of the symbols without a home, by name.
    plain: IndexMap<Vec<u8>, u32>,
}

impl Model for Index {
    ghost use Rattle.combined_index.specs.Combined.{Combined};

    ghost Value = { Combined };

    ghost view = { λ i. record { symbols = i.symbols.items; modules = i.modules.items } };

    ghost use Rattle.combined_index.specs.Tables.{IsIndexed};

    ghost invariant = { λ i. IsIndexed i.symbols.items i.modules.items i.places.items i.plain.entries };
}

impl Index {
    /// The index of these symbols and modules.
    pub(crate) fn of(
        alloc: Global,
        symbols: Vec<Symbol>,
        modules: Vec<Rows<Definition>>,
    ) -> Result<Index, AllocError>
        requires { IsIndex (record { symbols = symbols.items; modules = modules.items }) }
        ensures { IfOk result (λ index. index ≡ record { symbols = symbols.items; modules = modules.items }) }
    {
        let places = places_of(alloc, symbols.len(), &modules)?;
        let plain = plain_numbers(alloc, &symbols)?;
        Ok(Index {
            symbols,
            modules,
            places,
            plain,
        })
    }

    /// All symbols that stand in the index, by number, each once: fewer than `2^32`.
    pub fn symbols(&self) -> &[Symbol]
        ensures symbols { result.now ≡ self.now.symbols }
        ensures index { IsIndex self.now }
    {
        &self.symbols
    }

    /// The definitions of each module, by module number, in the order of its text. A body that is
    /// `available_externally` is none. All numbers in them are those of symbols of the index.
    pub fn modules(&self) -> &[Rows<Definition>]
        ensures modules { result.now ≡ self.now.modules }
        ensures index { IsIndex self.now }
    {
        &self.modules
    }

    /// The definition of a symbol that prevails; `None` where it has none. Constant time, no memory.
    pub fn prevailing(&self, symbol: u32) -> Option<&Definition>
        ensures prevails { option_copied result ≡ prevailing_of self.now symbol }
        ensures within { IfSome result (λ d. IsWithin (length self.now.symbols) d.now) }
    {
        let place = (*self.places.get(symbol as usize)?)?;
        let module = self.modules.get(place.number)?;
        module.as_slice().get(place.index)
    }

    /// The number of the symbol of this name that isn't local to a module; `None` where no definition
    /// is of it and none refers to it.
    pub fn number_of(&self, name: &[u8]) -> Option<u32>
        ensures { result ≡ number_of self.now name.now }
    {
        match self.plain.get(name) {
            Some(number) => Some(*number),
            None => None,
        }
    }
}
