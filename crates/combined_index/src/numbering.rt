//! Summaries become definitions: names become numbers of symbols.
ghost use Rattle.std.specs.Prelude.{filter, map, IfOk};
ghost use Rattle.combined_index.specs.Entries.{entries, entry_of, symbol_of};
ghost use Rattle.ir_tree.specs.Linkages.{defines};
ghost use Rattle.combined_index.specs.Numbered.{NumbersEntries, NumbersEntry, NumbersSymbols, is_kept, symbols};

use crate::definition::Definition;
use crate::key::{Key, number_of};
use crate::scope::{Scope, own_names};
use indexmap::IndexSet;
use ir_summary::Summary;
use ir_tree::{Rows, Text};
use std::alloc::{AllocError, Global};
use symbol_resolve::Resolution;

/// The numbers of the symbols that names stand for.
fn numbers_of<'a>(
    alloc: Global,
    table: &mut IndexSet<Key<'a>>,
    scope: &Scope<'a>,
    names: &'a [Text],
) -> Result<Rows<u32>, AllocError>
    ensures { IfOk result (λ rows. NumbersSymbols (symbols table.old.keys) (map (symbol_of scope.now.number (is_kept scope.now.own.keys)) names.entry.now) (symbols table.new.keys) rows) }
{
    let mut rows = Rows::new(alloc);
    for name in names {
        let number = number_of(table, scope.key(name.as_slice()))?;
        rows.push(number)?;
    }
    Ok(rows)
}

/// The definition that a summary is of.
fn definition_of<'a>(
    alloc: Global,
    table: &mut IndexSet<Key<'a>>,
    scope: &Scope<'a>,
    resolution: &Resolution,
    summary: &'a Summary,
) -> Result<Definition, AllocError>
    ensures { IfOk result (λ d. NumbersEntry (symbols table.old.keys) (entry_of resolution.now scope.now.number (is_kept scope.now.own.keys) summary.entry.now) (symbols table.new.keys) d) }
{
    let key = scope.key(summary.name.as_slice());
    let prevails = scope.prevails(&key, resolution);
    let symbol = number_of(table, key)?;
    let calls = numbers_of(alloc, table, scope, summary.calls.as_slice())?;
    let refs = numbers_of(alloc, table, scope, summary.refs.as_slice())?;
    Ok(Definition {
        symbol,
        linkage: summary.linkage,
        count: summary.count,
        noinline: summary.noinline,
        optnone: summary.optnone,
        prevails,
        calls,
        refs,
    })
}

/// The definitions of a module with this scope.
fn scoped_definitions<'a>(
    alloc: Global,
    table: &mut IndexSet<Key<'a>>,
    scope: &Scope<'a>,
    resolution: &Resolution,
    summaries: &'a [Summary],
) -> Result<Rows<Definition>, AllocError>
    ensures { IfOk result (λ rows. NumbersEntries (symbols table.old.keys) (map (entry_of resolution.now scope.now.number (is_kept scope.now.own.keys)) (filter (λ s. defines s.linkage) summaries.entry.now)) (symbols table.new.keys) rows) }
{
    let mut rows = Rows::new(alloc);
    for summary in summaries {
        if summary.linkage.defines() {
            let definition = definition_of(alloc, table, scope, resolution, summary)?;
            rows.push(definition)?;
        }
    }
    Ok(rows)
}

/// The definitions of a module.
pub(crate) fn definitions_of<'a>(
    alloc: Global,
    table: &mut IndexSet<Key<'a>>,
    number: u32,
    resolution: &Resolution,
    summaries: &'a [Summary],
) -> Result<Rows<Definition>, AllocError>
    ensures { IfOk result (λ rows. NumbersEntries (symbols table.old.keys) (entries resolution.now number summaries.entry.now) (symbols table.new.keys) rows) }
{
    let own = own_names(alloc, summaries)?;
    let scope = Scope { number, own };
    scoped_definitions(alloc, table, &scope, resolution, summaries)
}
