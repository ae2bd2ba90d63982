//! The definitions that prevail, by symbol.
ghost use Rattle.std.specs.Prelude.{◌≡◌, ◌<◌, ◌++◌, ◌∷◌, [], None, List, length, option_map, option_to_list, slice_index_or, IfOk, OnOk};
ghost use Rattle.combined_index.specs.Combined.{AreWithin};
ghost use Rattle.thin_link.specs.Listed.{Listed, all_first, all_listed, listed_from};
ghost use Rattle.thin_link.specs.Rows.{IsTable, all_shown, shown};

use crate::entry::{Entry, entry_of};
use combined_index::{Definition, Index};
use ir_tree::Symbol;
use std::alloc::{AllocError, Global};

/// Puts an entry in the row of its symbol, if it is the first that prevails for it.
fn put<'a>(table: &mut [Option<Entry<'a>>], entry: Entry<'a>)
    requires { entry.definition.now.symbol < length table.old }
    ensures len { length table.new ≡ length table.old }
    ensures table { (before : List Listed) → IsTable table.old before → IsTable table.new (before ++ shown entry.entry ∷ []) }
{
    if entry.definition.prevails {
        let symbol = entry.definition.symbol as usize;
        if table[symbol].is_none() {
            table[symbol] = Some(entry);
        }
    }
}

/// Puts the entries of a module's definitions in their rows.
fn put_all<'a>(
    table: &mut [Option<Entry<'a>>],
    symbols: &'a [Symbol],
    number: usize,
    definitions: &'a [Definition],
)
    requires size { length table.old ≡ length symbols.now }
    requires within { AreWithin (length symbols.now) definitions.now }
    ensures len { length table.new ≡ length table.old }
    ensures table { (before : List Listed) → IsTable table.old before → IsTable table.new (before ++ all_listed symbols.entry.now number definitions.entry.now) }
{
    for definition in definitions {
        put(table, entry_of(symbols, number, definition));
    }
}

/// For each symbol the entry of its definition that prevails.
pub(crate) fn prevailing<'a>(
    alloc: Global,
    index: &'a Index,
) -> Result<Vec<Option<Entry<'a>>>, AllocError>
    ensures { IfOk result (λ table. IsTable table.items (listed_from index.entry.now.symbols 0 index.entry.now.modules)) }
{
    let symbols = index.symbols();
    let mut table = vec![in alloc; None; symbols.len()]?;
    for (number, definitions) in index.modules().iter().enumerate() {
        put_all(&mut table, symbols, number, definitions.as_slice());
    }
    Ok(table)
}

/// The entry in the row of a symbol.
fn row_of<'a>(table: &[Option<Entry<'a>>], symbol: u32) -> Option<Entry<'a>>
    ensures { option_map shown result ≡ option_map shown (slice_index_or table.now symbol None) }
{
    match table.get(symbol as usize) {
        Some(row) => *row,
        None => None,
    }
}

/// Adds an entry that was found at the end.
fn push_found<'a>(rows: &mut Vec<Entry<'a>>, found: Option<Entry<'a>>) -> Result<(), AllocError>
    ensures { OnOk result (all_shown rows.new.items ≡ all_shown rows.old.items ++ option_to_list (option_map shown found.entry)) }
{
    if let Some(entry) = found {
        rows.push(entry)?;
    }
    Ok(())
}

/// The entries of the definitions of these symbols that prevail.
pub(crate) fn of_symbols<'a>(
    alloc: Global,
    table: &[Option<Entry<'a>>],
    symbols: &[u32],
) -> Result<Vec<Entry<'a>>, AllocError>
    ensures { IfOk result (λ rows. (before : List Listed) → IsTable table.now before → all_shown rows.items ≡ all_first before symbols.now) }
{
    let mut rows = Vec::new(alloc);
    for symbol in symbols {
        push_found(&mut rows, row_of(table, *symbol))?;
    }
    Ok(rows)
}
