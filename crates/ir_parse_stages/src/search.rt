//! Whether a walk leads from a place of a graph back to it: a search in breadth.
ghost use Rattle.std.specs.Prelude.{◌≡◌, ◌<◌, ◌++◌, ◌∷◌, [], IfOk, Ok, OnOk, length, true, false, if◌then◌else◌, slice_set, ℕ};
ghost use Rattle.ir_parse_names.specs.Walks.{Graph as Rows, next, is_on_circle};
ghost use Rattle.ir_parse_stages.specs.Searching.{Among, at, is_seen, IsSearch, IsPassing};

use crate::graph::Graph;
use std::alloc::{AllocError, Global};

/// A search in breadth: the places that are found, in order, and which these are.
#[derive(Drop)]
struct Search {
    found: Vec<usize>,
    seen: Vec<bool>,
}

impl Search {
    fn new(alloc: Global, count: usize, start: usize) -> Result<Search, AllocError>
        requires { start < count }
        ensures { IfOk result (λ s. (graph : Rows) → length graph ≡ count → IsSearch graph start s.found.items s.seen.items 0) }
    {
        let mut seen = vec![in alloc; false; count]?;
        seen[start] = true;
        let mut found = Vec::new(alloc);
        found.push(start)?;
        Ok(Search { found, seen })
    }

    /// The place that is found in this turn.
    fn found_at(&self, turn: usize) -> usize
        requires { turn < length self.now.found.items }
        ensures { result ≡ at self.now.found.items turn }
    {
        self.found[turn]
    }

    /// Finds a place, where it isn't found before.
    fn visit(&mut self, place: usize) -> Result<(), AllocError>
        ensures found { OnOk result (self.new.found.items ≡ (if is_seen self.old.seen.items place then self.old.found.items else self.old.found.items ++ place ∷ [])) }
        ensures seen { OnOk result (self.new.seen.items ≡ (if is_seen self.old.seen.items place then self.old.seen.items else slice_set self.old.seen.items place true)) }
    {
        if place < self.seen.len() && !self.seen[place] {
            self.seen[place] = true;
            self.found.push(place)?;
        }
        Ok(())
    }

    /// Goes over the edges to these places, unless one of them leads back.
    fn pass(&mut self, start: usize, row: &[usize]) -> Result<bool, AllocError>
        ensures back { result ≡ Ok true → Among start row.now }
        ensures on { result ≡ Ok false → (graph : Rows) (head : ℕ) → IsPassing graph start self.old.found.items self.old.seen.items head row.now 0 → IsPassing graph start self.new.found.items self.new.seen.items head row.now (length row.now) }
    {
        'each: for place in row {
            if *place == start {
                return Ok(true);
            }
            self.visit(*place)?;
        }
        Ok(false)
    }
}

/// Whether a walk leads from a place back to it.
pub fn is_on_circle(alloc: Global, graph: &Graph, start: usize) -> Result<bool, AllocError>
    requires { start < length graph.now }
    ensures { IfOk result (λ b. b ≡ is_on_circle graph.now start) }
{
    let mut search = Search::new(alloc, graph.len(), start)?;
    let mut head = 0;
    'each: while head < search.found.len() {
        let row = graph.next(search.found_at(head));
        if search.pass(start, row)? {
            return Ok(true);
        }
        head += 1;
    }
    Ok(false)
}
