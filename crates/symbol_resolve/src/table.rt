//! The table of the names that modules mention to one another.
ghost use Rattle.std.specs.Prelude.{◌≡◌, ◌++◌, List, Some, IfOk, OnOk};
ghost use Rattle.std.specs.List.{flat_map};
ghost use Rattle.symbol_resolve.specs.Listed.{Tabled, known};
ghost use Rattle.symbol_resolve.specs.Mentions.{Mention, mention, mentioned, mentions};

use crate::facts::{Facts, UNKNOWN, noted};
use crate::mention::{Standing, SymbolKind, function_standing, variable_standing};
use indexmap::IndexMap;
use ir_tree::{GlobalValue, Verified};
use std::alloc::{AllocError, Global};

fn known(table: &IndexMap<&[u8], Facts>, name: &[u8]) -> Facts
    ensures { result ≡ known table.now.entries name.now }
{
    match table.get(&name) {
        Some(facts) => *facts,
        None => UNKNOWN,
    }
}

/// Notes that a module mentions a name.
fn note<'a>(
    table: &mut IndexMap<&'a [u8], Facts>,
    number: u32,
    name: &'a [u8],
    kind: SymbolKind,
    standing: Standing,
) -> Result<(), AllocError>
    ensures { OnOk result ((ms : List Mention) → Tabled ms table.old.entries → Tabled (ms ++ mentioned number name.entry.now kind (Some standing)) table.new.entries) }
{
    let facts = noted(known(table, name), number, kind, standing);
    table.insert(name, facts)?;
    Ok(())
}

/// Notes a global value, unless it is local to its module.
fn note_any<'a>(
    table: &mut IndexMap<&'a [u8], Facts>,
    number: u32,
    name: &'a [u8],
    kind: SymbolKind,
    standing: Option<Standing>,
) -> Result<(), AllocError>
    ensures { OnOk result ((ms : List Mention) → Tabled ms table.old.entries → Tabled (ms ++ mentioned number name.entry.now kind standing) table.new.entries) }
{
    match standing {
        None => Ok(()),
        Some(standing) => note(table, number, name, kind, standing),
    }
}

fn note_global<'a>(
    table: &mut IndexMap<&'a [u8], Facts>,
    number: u32,
    global: &'a GlobalValue,
) -> Result<(), AllocError>
    ensures { OnOk result ((ms : List Mention) → Tabled ms table.old.entries → Tabled (ms ++ mention number global.entry.now) table.new.entries) }
{
    match global {
        GlobalValue::Variable(variable) => {
            let standing = variable_standing(variable);
            let name = variable.symbol.name.as_slice();
            note_any(table, number, name, SymbolKind::Variable, standing)
        }
        GlobalValue::Function(function) => {
            let standing = function_standing(function);
            let name = function.symbol.name.as_slice();
            note_any(table, number, name, SymbolKind::Function, standing)
        }
    }
}

fn note_globals<'a>(
    table: &mut IndexMap<&'a [u8], Facts>,
    number: u32,
    globals: &'a [GlobalValue],
) -> Result<(), AllocError>
    ensures { OnOk result ((ms : List Mention) → Tabled ms table.old.entries → Tabled (ms ++ flat_map (mention number) globals.entry.now) table.new.entries) }
{
    for global in globals {
        note_global(table, number, global)?;
    }
    Ok(())
}

/// The names that the modules mention to one another with what is known of each, in the order in
/// which they are first seen. Beside want of memory, `2^32` modules or more are refused as too many.
pub(crate) fn tabled<'a>(
    alloc: Global,
    modules: &'a [Verified],
) -> Result<IndexMap<&'a [u8], Facts>, AllocError>
    ensures { IfOk result (λ table. Tabled (mentions modules.entry.now) table.entries) }
{
    let mut table = IndexMap::new(alloc);
    let mut number: u32 = 0;
    for verified in modules {
        note_globals(&mut table, number, verified.module().globals.as_slice())?;
        let Some(next) = number.checked_add(1) else {
            return Err(AllocError);
        };
        number = next;
    }
    Ok(table)
}
