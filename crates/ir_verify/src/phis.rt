//! The third rule: a phi has an entry for each edge.
ghost use Rattle.std.specs.Prelude.{◌≡◌, ◌<◌, ◌↔◌, map, length, IfOk, IsTrue};
ghost use Rattle.ir_tree.specs.Rules.{place, OnEdges};
ghost use Rattle.ir_tree.specs.Flow.{edges};
ghost use Rattle.ir_flow.specs.OfFunction.{IsGraphOf};
ghost use Rattle.ir_verify.specs.Definitions.{numbered};
ghost use Rattle.ir_verify.specs.Edged.{SameCounts, Agree};
ghost use Rattle.ir_verify.specs.Tables.{Holds};

use crate::table::Table;
use ir_flow::Edges;
use ir_tree::{Block, Function, Incoming};
use std::alloc::{AllocError, Global};
use std::collections::HashMap;

/// The place of the block of a number; where there is none, the number of blocks.
pub fn place_of(blocks: &[Block], places: &Table<usize>, number: u32) -> usize
    requires { Holds places.now.entries.items (numbered 0 blocks.now) }
    ensures { result ≡ place blocks.now number }
{
    match places.get(number) {
        Some(place) => place,
        None => blocks.len(),
    }
}

/// The places of the blocks that entries are for.
fn sources(
    alloc: Global,
    blocks: &[Block],
    places: &Table<usize>,
    entries: &[Incoming],
) -> Result<Vec<usize>, AllocError>
    requires { Holds places.now.entries.items (numbered 0 blocks.now) }
    ensures { IfOk result (λ v. v.items ≡ map (λ e. place blocks.now e.from) entries.now) }
{
    let mut sources = Vec::new(alloc);
    for entry in entries {
        sources.push(place_of(blocks, places, entry.from))?;
    }
    Ok(sources)
}

fn widened(alloc: Global, row: &[u32]) -> Result<Vec<usize>, AllocError>
    ensures { IfOk result (λ v. v.items ≡ row.now) }
{
    let mut wide = Vec::new(alloc);
    for place in row {
        wide.push(*place as usize)?;
    }
    Ok(wide)
}

/// Whether each number stands in both lists as often.
fn same_counts(alloc: Global, mut sources: Vec<usize>, row: &[u32]) -> Result<bool, AllocError>
    ensures { IfOk result (λ same. IsTrue same ↔ SameCounts sources.items row.now) }
{
    let mut expected = widened(alloc, row)?;
    expected.sort()?;
    sources.sort()?;
    Ok(sources.as_slice() == expected.as_slice())
}

/// Whether entries for one block are equal.
fn entries_agree(alloc: Global, entries: &[Incoming]) -> Result<bool, AllocError>
    ensures { IfOk result (λ agree. IsTrue agree ↔ Agree entries.now) }
{
    let mut first = HashMap::new(alloc);
    for number in 0..entries.len() {
        let entry = &entries[number];
        let known: Option<usize> = first.get(&entry.from).copied();
        match known {
            Some(before) => {
                if entries[before].value != entry.value {
                    return Ok(false);
                }
            }
            None => {
                first.insert(entry.from, number)?;
            }
        }
    }
    Ok(true)
}

/// Whether a phi of the block at a place has one entry for each edge from another block, and equal entries for one block.
pub fn on_edges(
    alloc: Global,
    function: &Function,
    places: &Table<usize>,
    preds: &Edges,
    block: usize,
    entries: &[Incoming],
) -> Result<bool, AllocError>
    requires located { Holds places.now.entries.items (numbered 0 function.now.blocks) }
    requires graph { IsGraphOf function.now preds.now }
    requires within { block < length function.now.blocks }
    ensures { IfOk result (λ on. IsTrue on ↔ OnEdges function.now block entries.now) }
{
    let sources = sources(alloc, function.blocks.as_slice(), places, entries)?;
    if !same_counts(alloc, sources, preds.of(block))? {
        return Ok(false);
    }
    entries_agree(alloc, entries)
}
