//! What a symbol is known by while the index is made.
ghost use Rattle.std.specs.Prelude.{◌≡◌, IfOk};
ghost use Rattle.combined_index.specs.Numbered.{NumbersSymbol, symbol, symbols};

use indexmap::IndexSet;
use ir_tree::{Symbol, Text};
use std::alloc::{AllocError, Global};

/// A symbol whose name is borrowed from a summary.
#[derive(Clone, Copy, PartialEq, Eq, Hash)]
pub(crate) struct Key<'a> {
    pub home: Option<u32>,
    pub name: &'a [u8],
}

/// The number of a symbol: its own, or where it has none yet the next. Beside want of memory,
/// `2^32` symbols or more are refused as too many.
pub(crate) fn number_of<'a>(table: &mut IndexSet<Key<'a>>, key: Key<'a>) -> Result<u32, AllocError>
    ensures { IfOk result (λ n. NumbersSymbol (symbols table.old.keys) (symbol key.entry) (symbols table.new.keys) n) }
{
    let (index, _) = table.insert_full(key)?;
    if index > 0xFFFF_FFFF {
        return Err(AllocError);
    }
    Ok(index as u32)
}

/// The symbols of a table, by number.
pub(crate) fn symbols_of(alloc: Global, keys: &[Key]) -> Result<Vec<Symbol>, AllocError>
    ensures { IfOk result (λ all. all.items ≡ symbols keys.now) }
{
    let mut all = Vec::new(alloc);
    for key in keys {
        all.push(Symbol {
            home: key.home,
            name: Text::copied(alloc, key.name)?,
        })?;
    }
    Ok(all)
}
