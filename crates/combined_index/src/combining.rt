//! The index of all summaries.
ghost use Rattle.std.specs.Prelude.{◌≡◌, map, [], IfOk};
ghost use Rattle.combined_index.specs.Entries.{combined};
ghost use Rattle.combined_index.specs.Indexed.{IsCombined};
ghost use Rattle.combined_index.specs.Numbered.{NumbersModules, symbols};

use crate::definition::Definition;
use crate::index::Index;
use crate::key::{Key, symbols_of};
use crate::numbering::definitions_of;
use indexmap::IndexSet;
use ir_summary::Summary;
use ir_tree::Rows;
use std::alloc::{AllocError, Global};
use symbol_resolve::Resolution;

/// The definitions of all modules.
fn modules_of<'a>(
    alloc: Global,
    table: &mut IndexSet<Key<'a>>,
    resolution: &Resolution,
    summaries: &'a [Vec<Summary>],
) -> Result<Vec<Rows<Definition>>, AllocError>
    ensures { IfOk result (λ modules. NumbersModules (symbols table.old.keys) (combined resolution.now (map (λ m. m.items) summaries.entry.now)) (symbols table.new.keys) modules.items) }
{
    let mut modules = Vec::new(alloc);
    let mut number: u32 = 0;
    for module in summaries {
        modules.push(definitions_of(alloc, table, number, resolution, module)?)?;
        let Some(next) = number.checked_add(1) else {
            return Err(AllocError);
        };
        number = next;
    }
    Ok(modules)
}

/// The index of the definitions that these summaries are of; the table has no symbol yet.
fn index_of<'a>(
    alloc: Global,
    table: &mut IndexSet<Key<'a>>,
    resolution: &Resolution,
    summaries: &'a [Vec<Summary>],
) -> Result<Index, AllocError>
    requires { table.old.keys ≡ [] }
    ensures { IfOk result (λ index. IsCombined resolution.now (map (λ m. m.items) summaries.now) index) }
{
    let modules = modules_of(alloc, table, resolution, summaries)?;
    if table.len() > 0xFFFF_FFFF {
        return Err(AllocError);
    }
    let symbols = symbols_of(alloc, table.as_slice())?;
    Index::of(alloc, symbols, modules)
}

/// The combined index of the modules of a link: of each its summaries, by module number. The
/// summaries and the resolution are those of one list of modules.
///
/// Beside want of memory, `2^32` symbols or modules or more are refused as too many. Time and memory
/// are linear in the summaries.
pub fn combine(
    alloc: Global,
    summaries: Vec<Vec<Summary>>,
    resolution: &Resolution,
) -> Result<Index, AllocError>
    ensures { IfOk result (λ index. IsCombined resolution.now (map (λ m. m.items) summaries.items) index) }
{
    let mut table = IndexSet::new(alloc);
    index_of(alloc, &mut table, resolution, summaries.as_slice())
}
