//! Names that are borrowed: as a set, and in the order of bytes.
ghost use Rattle.std.specs.Prelude.{◌≡◌, ◌↔◌, ◌++◌, ℕ, List, Contains, IfOk, OnOk, flat_map};
ghost use Rattle.std.specs.List.{list_any};
ghost use Rattle.std.specs.Str.{bytes_eq};
ghost use Rattle.ir_summary.specs.Once.{texts};
ghost use Rattle.ir_summary.specs.References.{global_names};
ghost use Rattle.lto_task.specs.Pieces.{NamesRise};
ghost use Rattle.merge_meaning.specs.ByName.{has};
ghost use Rattle.importer.specs.Tables.{values};

use ir_flow::AnalysedValue;
use ir_summary::references;
use ir_tree::{Rows, Text};
use std::alloc::{AllocError, Global};
use std::collections::HashSet;

/// Sorts names in the order of bytes, and leaves each one once.
pub(crate) fn sort_names(names: &mut Vec<&[u8]>)
    ensures rise { NamesRise (texts names.new.items) }
    ensures same { (name : List ℕ) → Contains (texts names.new.items) name ↔ Contains (texts names.old.items) name }
{
    names.sort_unstable();
    names.dedup();
}

/// These names, as a set.
pub(crate) fn set_of<'a>(alloc: Global, names: &'a [Text]) -> Result<HashSet<&'a [u8]>, AllocError>
    ensures { IfOk result (λ set. (name : List ℕ) → has set name ≡ list_any (bytes_eq name) names.entry.now) }
{
    let mut set = HashSet::new(alloc);
    for name in names {
        set.insert(name.as_slice())?;
    }
    Ok(set)
}

/// These names, borrowed.
pub(crate) fn borrowed<'a>(alloc: Global, names: &'a [Text]) -> Result<Vec<&'a [u8]>, AllocError>
    ensures { IfOk result (λ list. texts list.items ≡ names.entry.now) }
{
    let mut list = Vec::new(alloc);
    for name in names {
        list.push(name.as_slice())?;
    }
    Ok(list)
}

/// Copies of these names.
#[tactic(auto, using(ir_summary::proofs::Onces::text_more))]
pub fn copies(alloc: Global, names: &[&[u8]]) -> Result<Rows<Text>, AllocError>
    ensures { IfOk result (λ rows. rows ≡ texts names.now) }
{
    let mut rows = Rows::new(alloc);
    for name in names {
        rows.push(Text::copied(alloc, name)?)?;
    }
    Ok(rows)
}

/// All names to which these values refer, as often as they do.
pub(crate) fn references_of<'a>(
    alloc: Global,
    globals: &[&'a AnalysedValue],
) -> Result<Vec<&'a [u8]>, AllocError>
    ensures { IfOk result (λ names. texts names.items ≡ flat_map global_names (values globals.now)) }
{
    let mut names = Vec::new(alloc);
    for global in globals {
        let more = references(alloc, global.value())?;
        names.extend_from_slice(&more)?;
    }
    Ok(names)
}
