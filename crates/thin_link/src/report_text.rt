//! The report of all modules.
ghost use Rattle.std.specs.Prelude.{◌≡◌, List, length, IfOk};
ghost use Rattle.combined_index.specs.Combined.{AreWithin};
ghost use Rattle.thin_link.specs.Lines.{definition_line, import_line};
ghost use Rattle.thin_link.specs.Listed.{Listed, all_first, all_listed};
ghost use Rattle.thin_link.specs.Pushing.{AddsLines};
ghost use Rattle.thin_link.specs.Reports.{IsReport};
ghost use Rattle.thin_link.specs.Rows.{IsTable, rows};

use crate::entry::{Entry, entries};
use crate::lines::{push_definitions, push_imports, push_module};
use crate::order::sort_entries;
use crate::table::{of_symbols, prevailing};
use combined_index::{Definition, Index, Live};
use ir_tree::Text;
use std::alloc::{AllocError, Global};

/// The lines of a module's definitions, by name.
fn push_defined(
    alloc: Global,
    out: &mut Vec<u8>,
    index: &Index,
    live: &Live,
    number: usize,
    definitions: &[Definition],
) -> Result<(), AllocError>
    requires live { length live.now ≡ length index.now.symbols }
    requires within { AreWithin (length index.now.symbols) definitions.now }
    ensures { IfOk result (λ _. AddsLines (definition_line live.now) (all_listed index.now.symbols number definitions.now) out.old.items out.new.items) }
{
    let mut entries = entries(alloc, index.symbols(), number, definitions)?;
    sort_entries(&mut entries)?;
    push_definitions(out, live, &entries)
}

/// The lines of a module's imports, by name and then by module.
fn push_imported(
    alloc: Global,
    out: &mut Vec<u8>,
    table: &[Option<Entry>],
    imports: &[u32],
) -> Result<(), AllocError>
    ensures { IfOk result (λ _. (before : List Listed) → IsTable table.now before → AddsLines import_line (all_first before imports.now) out.old.items out.new.items) }
{
    let mut entries = of_symbols(alloc, table, imports)?;
    sort_entries(&mut entries)?;
    push_imports(out, &entries)
}

/// What a link decides, as text: for each module, in command order, the line `module K NAME`, K its
/// number and NAME its file; then for each of its definitions a line `  define @N COUNT STATE`, and for
/// each function that it imports a line `  import @N from K COUNT`, K the module that defines it.
///
/// A definition's state is `replaced` where it doesn't prevail, else `live` or `dead`; a count is `-`
/// for a variable. A body that is `available_externally` is no definition of the index and has no line.
/// Definitions stand by name, in the order of bytes, imports by name and then by module; names are
/// quoted as in printed modules. An import of a symbol without a definition that prevails has no line.
/// There is a mark for each symbol of the index, and a list of imports and a file for each module.
///
/// The only error is want of memory.
pub fn report(
    alloc: Global,
    index: &Index,
    live: &Live,
    imports: &[Vec<u32>],
    files: &[Text],
) -> Result<Text, AllocError>
    requires live { length live.now ≡ length index.now.symbols }
    requires imports { length imports.now ≡ length index.now.modules }
    requires files { length files.now ≡ length index.now.modules }
    ensures { IfOk result (λ text. IsReport index.now live.now (rows imports.now) files.now text) }
{
    let table = prevailing(alloc, index)?;
    let mut out = Vec::new(alloc);
    for (number, definitions) in index.modules().iter().enumerate() {
        push_module(&mut out, number, files[number].as_slice())?;
        push_defined(alloc, &mut out, index, live, number, definitions.as_slice())?;
        push_imported(alloc, &mut out, &table, imports[number].as_slice())?;
    }
    Ok(Text::of(out))
}
