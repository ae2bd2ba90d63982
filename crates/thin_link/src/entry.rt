//! A definition as a report lists it.
ghost use Rattle.std.specs.Prelude.{◌≡◌, ◌<◌, IfOk, length};
ghost use Rattle.combined_index.specs.Combined.{AreWithin};
ghost use Rattle.thin_link.specs.Listed.{all_listed, listed};
ghost use Rattle.thin_link.specs.Rows.{AreBelow, all_shown, shown};

use combined_index::Definition;
use ir_tree::Symbol;
use std::alloc::{AllocError, Global};

/// A definition under its symbol's name, and the number of its module.
#[derive(Clone, Copy)]
pub(crate) struct Entry<'a> {
    pub name: &'a [u8],
    pub home: usize,
    pub definition: &'a Definition,
}

/// The entry of a definition of this module.
pub(crate) fn entry_of<'a>(
    symbols: &'a [Symbol],
    number: usize,
    definition: &'a Definition,
) -> Entry<'a>
    requires { definition.now.symbol < length symbols.now }
    ensures { shown result ≡ listed symbols.entry.now number definition.entry.now }
{
    Entry {
        name: symbols[definition.symbol as usize].name.as_slice(),
        home: number,
        definition,
    }
}

/// The entries of a module's definitions.
pub(crate) fn entries<'a>(
    alloc: Global,
    symbols: &'a [Symbol],
    number: usize,
    definitions: &'a [Definition],
) -> Result<Vec<Entry<'a>>, AllocError>
    requires { AreWithin (length symbols.now) definitions.now }
    ensures entries { IfOk result (λ rows. all_shown rows.items ≡ all_listed symbols.entry.now number definitions.entry.now) }
    ensures below { IfOk result (λ rows. AreBelow (length symbols.entry.now) rows.items) }
{
    let mut rows = Vec::new(alloc);
    for definition in definitions {
        rows.push(entry_of(symbols, number, definition))?;
    }
    Ok(rows)
}
