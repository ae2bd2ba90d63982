//! The task of each module of a link.
ghost use Rattle.std.specs.Prelude.{◌≡◌, ◌↔◌, ◌++◌, ◌∷◌, [], if◌then◌else◌, ℕ, List, Contains, IfOk, OnOk, filter, map};
ghost use Rattle.ir_summary.specs.Once.{texts};
ghost use Rattle.lto_task.specs.Pieces.{NamesRise};
ghost use Rattle.lto_task.specs.Tasks.{task_view};
ghost use Rattle.merge_meaning.specs.ByName.{IsInOrder, has};
ghost use Rattle.thin_link.specs.Views.{rows};
ghost use Rattle.importer.specs.Brought.{brought, joined, names_of};
ghost use Rattle.importer.specs.ModuleTasks.{AreTasks, IsTaskAt};
ghost use Rattle.importer.specs.Tables.{values};
ghost use Rattle.importer.specs.Tasks.{name_of};

use crate::finals::push_names;
use crate::names::{borrowed, copies, set_of, sort_names};
use crate::setting::{Setting, list_at, part_at};
use crate::table::{push_all, table_of};
use ir_flow::AnalysedValue;
use ir_meaning::symbol_of;
use ir_tree::{Rows, Symbol, Text};
use lto_task::Task;
use std::alloc::{AllocError, Global};
use std::collections::HashSet;

/// Adds the name, where it is one of the set.
fn push_shared<'a>(
    names: &mut Vec<&'a [u8]>,
    set: &HashSet<&[u8]>,
    name: &'a [u8],
) -> Result<(), AllocError>
    ensures { OnOk result (texts names.new.items ≡ texts names.old.items ++ (if has set.now name.entry.now then name.entry.now ∷ [] else [])) }
{
    if set.contains(name) {
        names.push(name)?;
    }
    Ok(())
}

/// The names of these values that are in the set.
fn shared_names<'a>(
    alloc: Global,
    set: &HashSet<&[u8]>,
    globals: &'a [AnalysedValue],
) -> Result<Vec<&'a [u8]>, AllocError>
    ensures { IfOk result (λ names. texts names.items ≡ filter (has set.now) (map name_of globals.entry.now)) }
{
    let mut names = Vec::new(alloc);
    for global in globals {
        push_shared(&mut names, set, symbol_of(global.value()).name.as_slice())?;
    }
    Ok(names)
}

/// Sorts values by name, in the order of bytes; those of one name stay as they stood.
fn sort_values(list: &mut Vec<&AnalysedValue>) -> Result<(), AllocError>
    ensures { OnOk result (IsInOrder (values list.old.items) (values list.new.items)) }
{
    list.sort_by(|a, b| {
        symbol_of(a.value())
            .name
            .as_slice()
            .cmp(symbol_of(b.value()).name.as_slice())
    })?;
    Ok(())
}

impl<'a> Setting<'a> {
    /// The names that the link exports and that this part defines, in the order of bytes.
    fn exports_of(
        &self,
        alloc: Global,
        part: &'a [AnalysedValue],
    ) -> Result<Vec<&'a [u8]>, AllocError>
        ensures rise { IfOk result (λ names. NamesRise (texts names.items)) }
        ensures are { IfOk result (λ names. (name : List ℕ) → Contains (texts names.items) name ↔ (Contains self.now.exports.now name × Contains (map name_of part.entry.now) name)) }
    {
        let mut names = shared_names(alloc, &self.exported, part)?;
        sort_names(&mut names);
        Ok(names)
    }

    /// The final names of the symbols of these numbers, in the order of bytes.
    fn promoted_names(&self, alloc: Global, numbers: &[u32]) -> Result<Vec<Text>, AllocError>
        ensures rise { IfOk result (λ names. NamesRise names.items) }
        ensures are { IfOk result (λ names. (name : List ℕ) → Contains names.items name ↔ Contains (names_of self.now.symbols.now self.now.suffixes.now numbers.now) name) }
    {
        let mut names = Rows::new(alloc);
        push_names(alloc, &mut names, self.symbols, self.suffixes, numbers)?;
        let mut sorted = borrowed(alloc, names.as_slice())?;
        sort_names(&mut sorted);
        let copied = copies(alloc, &sorted)?;
        Ok(copied.into_vec())
    }

    /// The values of the symbols of these numbers, by name.
    fn imported(&self, alloc: Global, numbers: &[u32]) -> Result<Vec<&'a AnalysedValue>, AllocError>
        ensures { IfOk result (λ list. IsInOrder (brought (joined self.now.parts.now) self.now.symbols.now self.now.suffixes.now numbers.now) (values list.items)) }
    {
        let mut list = Vec::new(alloc);
        self.push_brought(alloc, &mut list, numbers)?;
        sort_values(&mut list)?;
        Ok(list)
    }

    /// The task of the module of this number.
    fn task_of(&self, alloc: Global, number: usize) -> Result<Task<'a>, AllocError>
        ensures { IfOk result (λ task. IsTaskAt self.now number (task_view task)) }
    {
        let part = part_at(self.parts, number);
        let exports = self.exports_of(alloc, part)?;
        let promoted = self.promoted_names(alloc, list_at(self.promoted, number))?;
        let mut defined = Vec::new(alloc);
        push_all(&mut defined, part)?;
        let own = self.module_of(alloc, defined)?;
        let bodies = self.imported(alloc, list_at(self.imports, number))?;
        let imported = self.module_of(alloc, bodies)?;
        Ok(Task {
            inline_limit: self.limit,
            exports,
            promoted,
            own,
            imported,
        })
    }

    /// The tasks of all modules, in command order.
    fn tasks(&self, alloc: Global) -> Result<Vec<Task<'a>>, AllocError>
        ensures { IfOk result (λ tasks. AreTasks self.now.exports.now self.now.limit self.now.symbols.now self.now.suffixes.now (rows self.now.imports.now) (rows self.now.promoted.now) self.now.parts.now tasks.items) }
    {
        let mut tasks = Vec::new(alloc);
        for number in 0..self.parts.len() {
            let task = self.task_of(alloc, number)?;
            tasks.push(task)?;
        }
        Ok(tasks)
    }
}

/// The tasks of the modules, in command order, where these names are exported. The parts are those of all modules.
pub fn tasks_of<'a>(
    alloc: Global,
    parts: &'a [Rows<AnalysedValue>],
    symbols: &'a [Symbol],
    suffixes: &'a [Text],
    imports: &'a [Vec<u32>],
    promoted: &'a [Vec<u32>],
    limit: u32,
    exports: &'a [Text],
) -> Result<Vec<Task<'a>>, AllocError>
    ensures { IfOk result (λ tasks. AreTasks exports.entry.now limit symbols.entry.now suffixes.entry.now (rows imports.entry.now) (rows promoted.entry.now) parts.entry.now tasks.items) }
{
    let table = table_of(alloc, parts)?;
    let exported = set_of(alloc, exports)?;
    let setting = Setting {
        parts,
        symbols,
        suffixes,
        imports,
        promoted,
        limit,
        exports,
        exported,
        table,
    };
    setting.tasks(alloc)
}
