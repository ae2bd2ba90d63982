//! Places of a graph from which a walk leads back to them.
ghost use Rattle.std.specs.Prelude.{◌≡◌, ◌≤◌, ℕ, IfOk, true, false};
ghost use Rattle.ir_parse_names.specs.Walks.{next, is_on_circle};
ghost use Rattle.ir_parse_stages.specs.Circles.{rank, NeverRises, is_free, AreFree};
ghost use Rattle.ir_parse_stages.specs.Searching.{Among};

use crate::graph::Graph;
use crate::ranks::ranks_of;
use crate::search;
use std::alloc::{AllocError, Global};
use std::marker::Model;

/// A graph, and places of it that are known to be on no circle. Contracts see the graph.
#[derive(Drop)]
pub struct Circles {
    graph: Graph,
    free: Vec<bool>,
}

impl Model for Circles {
    ghost use Rattle.ir_parse_names.specs.Walks as walks;
    ghost use Rattle.ir_parse_stages.specs.Circles.{AreFree};

    ghost Value = { walks.Graph };

    ghost view = { λ c. c.graph };

    ghost invariant = { λ c. AreFree c.graph c.free.items };
}

fn rank(ranks: &[usize], place: usize) -> usize
    ensures { result ≡ rank ranks.now place }
{
    if place < ranks.len() { ranks[place] } else { 0 }
}

/// Whether each of these places has at most this number.
fn are_at_most(ranks: &[usize], row: &[usize], most: usize) -> bool
    ensures { result ≡ true → (q : ℕ) → Among q row.now → rank ranks.now q ≤ most }
{
    'each: for place in row {
        if rank(ranks, *place) > most {
            return false;
        }
    }
    true
}

/// Whether no edge leads to a place of a greater number.
#[tactic(auto, using(crate::proofs::Free::none_rises))]
fn never_rises(graph: &Graph, ranks: &[usize]) -> bool
    ensures { result ≡ true → NeverRises graph.now ranks.now }
{
    'each: for place in 0..graph.len() {
        if !are_at_most(ranks, graph.next(place), rank(ranks, place)) {
            return false;
        }
    }
    true
}

/// Whether each edge of a place leads to one of a lower number, where none leads to one of a greater.
#[tactic(auto, using(crate::proofs::Free::falls))]
fn falls(graph: &Graph, ranks: &[usize], place: usize) -> bool
    requires { NeverRises graph.now ranks.now }
    ensures { result ≡ true → is_on_circle graph.now place ≡ false }
{
    match rank(ranks, place).checked_sub(1) {
        None => false,
        Some(most) => are_at_most(ranks, graph.next(place), most),
    }
}

/// The places all of whose edges lead to lower numbers.
fn falling(alloc: Global, graph: &Graph, ranks: &[usize]) -> Result<Vec<bool>, AllocError>
    requires { NeverRises graph.now ranks.now }
    ensures { IfOk result (λ v. AreFree graph.now v.items) }
{
    let mut free = Vec::new(alloc);
    'each: for place in 0..graph.len() {
        free.push(falls(graph, ranks, place))?;
    }
    Ok(free)
}

/// Places that are on no circle: all such, where the numbers are those of components in an order of the
/// edges between them.
#[tactic(auto, using(crate::proofs::Free::none_free))]
fn free_by(alloc: Global, graph: &Graph, ranks: &[usize]) -> Result<Vec<bool>, AllocError>
    ensures { IfOk result (λ v. AreFree graph.now v.items) }
{
    if never_rises(graph, ranks) {
        falling(alloc, graph, ranks)
    } else {
        Ok(Vec::new(alloc))
    }
}

impl Circles {
    /// The circles of a graph.
    pub fn of(alloc: Global, graph: Graph) -> Result<Circles, AllocError>
        ensures { IfOk result (λ c. c ≡ graph) }
    {
        let ranks = ranks_of(alloc, &graph)?;
        let free = free_by(alloc, &graph, &ranks)?;
        Ok(Circles { graph, free })
    }

    /// Whether a place is known to be on no circle.
    fn is_free(&self, place: usize) -> bool
        ensures { result ≡ true → is_on_circle self.now place ≡ false }
    {
        place < self.free.len() && self.free[place]
    }

    /// Whether a walk leads from a place back to it. Linear in the graph for a place on a circle, and else
    /// at once.
    #[tactic(auto, using(crate::proofs::Free::ends))]
    pub fn holds(&self, alloc: Global, place: usize) -> Result<bool, AllocError>
        ensures { IfOk result (λ b. b ≡ is_on_circle self.now place) }
    {
        if place >= self.graph.len() || self.is_free(place) {
            Ok(false)
        } else {
            search::is_on_circle(alloc, &self.graph, place)
        }
    }
}
