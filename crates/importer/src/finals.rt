//! Final names of symbols by their numbers.
ghost use Rattle.std.specs.Prelude.{◌≡◌, ◌++◌, OnOk, option_copied, option_map};
ghost use Rattle.combined_index.specs.Finals.{final_name};
ghost use Rattle.importer.specs.Brought.{names_of};
ghost use Rattle.importer.specs.Tables.{option_list};

use crate::setting::symbol_at;
use combined_index::final_name;
use ir_tree::{Rows, Symbol, Text};
use std::alloc::{AllocError, Global};

/// Adds a symbol's final name, if there is one.
fn push_final(
    alloc: Global,
    names: &mut Rows<Text>,
    suffixes: &[Text],
    symbol: Option<&Symbol>,
) -> Result<(), AllocError>
    ensures { OnOk result (names.new ≡ names.old ++ option_list (option_map (final_name suffixes.now) (option_copied symbol.entry))) }
{
    if let Some(symbol) = symbol {
        names.push(final_name(alloc, suffixes, symbol)?)?;
    }
    Ok(())
}

/// Adds the final names of the symbols of these numbers.
pub(crate) fn push_names(
    alloc: Global,
    names: &mut Rows<Text>,
    symbols: &[Symbol],
    suffixes: &[Text],
    numbers: &[u32],
) -> Result<(), AllocError>
    ensures { OnOk result (names.new ≡ names.old ++ names_of symbols.now suffixes.now numbers.now) }
{
    for number in numbers {
        push_final(alloc, names, suffixes, symbol_at(symbols, *number))?;
    }
    Ok(())
}
