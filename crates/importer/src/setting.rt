//! What the tasks of a link's modules are made of.
ghost use Rattle.std.specs.Prelude.{◌≡◌, ◌++◌, ℕ, [], IfOk, List, OnOk, option_copied, slice_get, slice_index_or};
ghost use Rattle.std.specs.List.{list_any};
ghost use Rattle.std.specs.Str.{bytes_eq};
ghost use Rattle.merge_meaning.specs.ByName.{has};
ghost use Rattle.thin_link.specs.Views.{rows};
ghost use Rattle.importer.specs.Brought.{brought, joined, value_named, value_of};
ghost use Rattle.importer.specs.Tables.{option_list, value_in, values};

use combined_index::final_name;
use ir_flow::AnalysedValue;
use ir_tree::{Rows, Symbol, Text};
use std::alloc::{AllocError, Global};
use std::collections::{HashMap, HashSet};

/// Adds a value to those that are borrowed, if there is one.
fn push_some<'a>(
    list: &mut Vec<&'a AnalysedValue>,
    value: Option<&'a AnalysedValue>,
) -> Result<(), AllocError>
    ensures { OnOk result (values list.new.items ≡ values list.old.items ++ option_list (option_copied value.entry)) }
{
    if let Some(global) = value {
        list.push(global)?;
    }
    Ok(())
}

/// The symbol of this number.
pub(crate) fn symbol_at(symbols: &[Symbol], number: u32) -> Option<&Symbol>
    ensures { option_copied result ≡ slice_get symbols.now number }
{
    if (number as usize) < symbols.len() {
        Some(&symbols[number as usize])
    } else {
        None
    }
}

/// The part of this number.
pub(crate) fn part_at(parts: &[Rows<AnalysedValue>], number: usize) -> &[AnalysedValue]
    ensures { result.now ≡ slice_index_or parts.now number [] }
{
    match parts.get(number) {
        Some(part) => part.as_slice(),
        None => &[],
    }
}

/// The list of this number.
pub(crate) fn list_at(lists: &[Vec<u32>], number: usize) -> &[u32]
    ensures { result.now ≡ slice_index_or (rows lists.now) number [] }
{
    match lists.get(number) {
        Some(numbers) => numbers,
        None => &[],
    }
}

/// What tasks are made of: the parts, what the index decided, and which names are exported.
#[derive(Drop)]
pub(crate) struct Setting<'a> {
    pub(crate) parts: &'a [Rows<AnalysedValue>],
    pub(crate) symbols: &'a [Symbol],
    pub(crate) suffixes: &'a [Text],
    pub(crate) imports: &'a [Vec<u32>],
    pub(crate) promoted: &'a [Vec<u32>],
    pub(crate) limit: u32,
    pub(crate) exports: &'a [Text],
    pub(crate) exported: HashSet<&'a [u8]>,
    pub(crate) table: HashMap<&'a [u8], &'a AnalysedValue>,
    ghost knows: { (name : List ℕ) → has exported name ≡ list_any (bytes_eq name) exports.now },
    ghost finds: { (name : List ℕ) → value_in table name ≡ value_named (joined parts.now) name },
}

impl<'a> Setting<'a> {
    /// The value of this name.
    pub(crate) fn value_named(&self, name: &[u8]) -> Option<&'a AnalysedValue>
        ensures { option_copied result ≡ value_named (joined self.now.parts.now) name.now }
    {
        match self.table.get(&name) {
            Some(global) => Some(*global),
            None => None,
        }
    }

    /// The value of a symbol, under its final name.
    fn value_of(
        &self,
        alloc: Global,
        symbol: Option<&Symbol>,
    ) -> Result<Option<&'a AnalysedValue>, AllocError>
        ensures { IfOk result (λ found. option_copied found ≡ value_of (joined self.now.parts.now) self.now.suffixes.now (option_copied symbol.entry)) }
    {
        let Some(symbol) = symbol else {
            return Ok(None);
        };
        let name = final_name(alloc, self.suffixes, symbol)?;
        Ok(self.value_named(name.as_slice()))
    }

    /// Adds the imported values, those of the symbols of these numbers.
    pub(crate) fn push_brought(
        &self,
        alloc: Global,
        list: &mut Vec<&'a AnalysedValue>,
        numbers: &[u32],
    ) -> Result<(), AllocError>
        ensures { OnOk result (values list.new.items ≡ values list.old.items ++ brought (joined self.now.parts.now) self.now.symbols.now self.now.suffixes.now numbers.now) }
    {
        for number in numbers {
            let value = self.value_of(alloc, symbol_at(self.symbols, *number))?;
            push_some(list, value)?;
        }
        Ok(())
    }
}
