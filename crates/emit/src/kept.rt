//! The names that a link keeps.
ghost use Rattle.std.specs.Prelude.{◌≡◌, ◌↔◌, ℕ, List, true, length, flat_map, IfOk};
ghost use Rattle.emit.specs.Joins.{IsUsed};
ghost use Rattle.lto_task.specs.declared.piece.Piece.{Piece};
ghost use Rattle.emit.specs.Graphs.{IsGraph, Linked, edges, is_key, is_marked};

use crate::graph::Graph;
use combined_index::reached;
use indexmap::IndexSet;
use ir_tree::{Rows, Text};
use lto_sets::Bits;
use lto_task::Piece;
use std::alloc::{AllocError, Global};

/// The references of all pieces.
fn graph_of<'a>(alloc: Global, units: &'a [Rows<Piece>]) -> Result<Graph<'a>, AllocError>
    ensures long { IfOk result (λ graph. length graph.rows.items ≡ length graph.names.keys) }
    ensures linked { IfOk result (λ graph. Linked (flat_map edges units.entry.now) graph.names.keys graph.rows.items) }
{
    let mut graph = Graph::new(alloc);
    for unit in units {
        graph.link_pieces(alloc, unit.as_slice())?;
    }
    Ok(graph)
}

/// The names whose numbers are marked.
fn marked<'a>(
    alloc: Global,
    names: &[&'a [u8]],
    marks: &Bits,
) -> Result<IndexSet<&'a [u8]>, AllocError>
    requires { length marks.now ≡ length names.now }
    ensures { IfOk result (λ kept. (name : List ℕ) → is_key kept.keys name ≡ is_marked names.now marks.now name) }
{
    let mut kept = IndexSet::new(alloc);
    for number in 0..marks.size() {
        let name = names[number as usize];
        if marks.has(number) {
            kept.insert(name)?;
        }
    }
    Ok(kept)
}

/// The names that are reached from these by the references of a graph.
fn reached_from<'a>(
    alloc: Global,
    graph: &mut Graph<'a>,
    starts: &'a [Text],
) -> Result<IndexSet<&'a [u8]>, AllocError>
    requires linked { IsGraph graph.now.names.keys graph.now.rows.items }
    ensures { IfOk result (λ kept. (pieces : List Piece) → Linked (edges pieces) graph.old.names.keys graph.old.rows.items → (name : List ℕ) → (is_key kept.keys name ≡ true) ↔ IsUsed starts.entry.now pieces name) }
{
    let starts = graph.numbers_of(alloc, starts)?;
    let marks = reached(alloc, &graph.rows, &starts)?;
    marked(alloc, graph.names.as_slice(), &marks)
}

/// The names that are reached from the exported ones by what pieces refer to.
pub(crate) fn kept<'a>(
    alloc: Global,
    units: &'a [Rows<Piece>],
    exports: &'a [Text],
) -> Result<IndexSet<&'a [u8]>, AllocError>
    ensures { IfOk result (λ kept. (name : List ℕ) → (is_key kept.keys name ≡ true) ↔ IsUsed exports.entry.now (flat_map (λ u. u) units.entry.now) name) }
{
    let mut graph = graph_of(alloc, units)?;
    reached_from(alloc, &mut graph, exports)
}

/// The names that are reached from these by what the pieces of one unit refer to.
pub(crate) fn kept_of<'a>(
    alloc: Global,
    pieces: &'a [Piece],
    offers: &'a [Text],
) -> Result<IndexSet<&'a [u8]>, AllocError>
    ensures { IfOk result (λ kept. (name : List ℕ) → (is_key kept.keys name ≡ true) ↔ IsUsed offers.entry.now pieces.entry.now name) }
{
    let mut graph = Graph::new(alloc);
    graph.link_pieces(alloc, pieces)?;
    reached_from(alloc, &mut graph, offers)
}
