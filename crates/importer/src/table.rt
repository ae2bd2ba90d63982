//! Global values by their names.
ghost use Rattle.std.specs.Prelude.{◌≡◌, ◌++◌, ℕ, List, IfOk, OnOk, Some, if◌then◌else◌};
ghost use Rattle.std.specs.Str.{bytes_eq};
ghost use Rattle.ir_meaning.specs.Programs.{symbol_of};
ghost use Rattle.importer.specs.Brought.{joined, value_named};
ghost use Rattle.importer.specs.Tables.{value_in, values};

use ir_flow::AnalysedValue;
use ir_meaning::symbol_of;
use ir_tree::Rows;
use std::alloc::{AllocError, Global};
use std::collections::HashMap;

/// Adds these global values to those that are borrowed.
pub fn push_all<'a>(
    all: &mut Vec<&'a AnalysedValue>,
    globals: &'a [AnalysedValue],
) -> Result<(), AllocError>
    ensures { OnOk result (values all.new.items ≡ values all.old.items ++ globals.entry.now) }
{
    for global in globals {
        all.push(global)?;
    }
    Ok(())
}

/// The global values of all parts, in their order.
fn all_of<'a>(
    alloc: Global,
    parts: &'a [Rows<AnalysedValue>],
) -> Result<Vec<&'a AnalysedValue>, AllocError>
    ensures { IfOk result (λ all. values all.items ≡ joined parts.entry.now) }
{
    let mut all = Vec::new(alloc);
    for part in parts {
        push_all(&mut all, part.as_slice())?;
    }
    Ok(all)
}

/// Puts a global value into the table, in the place of one that has its name.
fn note<'a>(
    table: &mut HashMap<&'a [u8], &'a AnalysedValue>,
    global: &'a AnalysedValue,
) -> Result<(), AllocError>
    ensures { OnOk result ((name : List ℕ) → value_in table.new name ≡ if bytes_eq (symbol_of global.entry.now).name name then Some global.entry.now else value_in table.old name) }
{
    table.insert(symbol_of(global.value()).name.as_slice(), global)?;
    Ok(())
}

/// The table of these global values; of one name the first.
pub(crate) fn noted<'a>(
    alloc: Global,
    all: &[&'a AnalysedValue],
) -> Result<HashMap<&'a [u8], &'a AnalysedValue>, AllocError>
    ensures { IfOk result (λ table. (name : List ℕ) → value_in table name ≡ value_named (values all.now) name) }
{
    let mut table = HashMap::new(alloc);
    let mut place = all.len();
    while place > 0 {
        place -= 1;
        note(&mut table, all[place])?;
    }
    Ok(table)
}

/// The global values of all parts by their names; of one name the first.
pub(crate) fn table_of<'a>(
    alloc: Global,
    parts: &'a [Rows<AnalysedValue>],
) -> Result<HashMap<&'a [u8], &'a AnalysedValue>, AllocError>
    ensures { IfOk result (λ table. (name : List ℕ) → value_in table name ≡ value_named (joined parts.entry.now) name) }
{
    let all = all_of(alloc, parts)?;
    noted(alloc, &all)
}
