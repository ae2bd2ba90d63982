//! Graphs by their rows.
ghost use Rattle.std.specs.Prelude.{◌≡◌, ◌++◌, ◌∷◌, [], OnOk, length};
ghost use Rattle.ir_parse_names.specs.Walks.{next};

use std::alloc::{AllocError, Global};
use std::marker::Model;

/// A graph by its rows: the row of a place has the places at the other ends of its edges.
#[derive(Drop)]
pub struct Graph {
    rows: Vec<Vec<usize>>,
}

impl Model for Graph {
    ghost use Rattle.std.specs.Prelude.{List, ℕ, map};
    ghost use Rattle.ir_parse_names.specs.Walks as walks;

    ghost Value = { walks.Graph };

    ghost view = { λ g. map (λ row. row.items) g.rows.items };
}

impl Graph {
    /// No row.
    pub fn new(alloc: Global) -> Graph
        ensures { result ≡ [] }
    {
        Graph {
            rows: Vec::new(alloc),
        }
    }

    /// The graph of these rows.
    pub fn of(rows: Vec<Vec<usize>>) -> Graph {
        Graph { rows }
    }

    /// One more row.
    pub fn push(&mut self, row: Vec<usize>) -> Result<(), AllocError>
        ensures { OnOk result (self.new ≡ self.old ++ row.items ∷ []) }
    {
        self.rows.push(row)?;
        Ok(())
    }

    /// How many rows there are.
    pub fn len(&self) -> usize
        ensures { result ≡ length self.now }
    {
        self.rows.len()
    }

    /// The row of a place.
    pub fn next(&self, place: usize) -> &[usize]
        ensures { result.now ≡ next self.now place }
    {
        match self.rows.get(place) {
            None => &[],
            Some(row) => row,
        }
    }
}
