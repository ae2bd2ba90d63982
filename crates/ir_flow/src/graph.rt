//! Rows of numbers in one flat list.
ghost use Rattle.std.specs.Prelude.{◌≡◌, ℕ, ◌<◌, ◌≤◌, ◌^◌, [], ◌∷◌, ◌++◌, map, length, slice_index, IfOk, OnOk};
ghost use Rattle.ir_flow.specs.Graph.{row, IsInverse};

use crate::chains::Chains;
use std::alloc::{AllocError, Global};
use std::marker::Model;

/// Where a row stands in the flat list: from `start` up to `end`.
#[derive(Clone, Copy)]
struct Extent {
    start: usize,
    end: usize,
}

/// A row of numbers for each of the numbers from 0: the edges of a graph, grouped by one of their ends.
///
/// A clause sees it as the list of its rows.
#[derive(Drop)]
pub struct Edges {
    rows: Vec<Extent>,
    flat: Vec<u32>,
}

impl Model for Edges {
    ghost use Rattle.std.specs.Prelude.{ℕ, List, length};
    ghost use Rattle.ir_flow.specs.Extents.{rows_of, AreWithin};

    ghost Value = { List (List ℕ) };

    ghost view = { λ e. rows_of e.flat.items e.rows.items };

    ghost invariant = { λ e. AreWithin (length e.flat.items) e.rows.items };
}

impl Edges {
    /// No row; takes no memory.
    pub(crate) fn new(alloc: Global) -> Edges
        ensures { result ≡ [] }
    {
        Edges {
            rows: Vec::new(alloc),
            flat: Vec::new(alloc),
        }
    }

    /// How many rows there are.
    pub fn len(&self) -> usize
        ensures { result ≡ length self.now }
    {
        self.rows.len()
    }

    /// The row at a place below the number of rows.
    pub fn of(&self, place: usize) -> &[u32]
        requires { place < length self.now }
        ensures { result.now ≡ row self.now place }
    {
        let extent = self.rows[place];
        &self.flat[extent.start..extent.end]
    }

    /// Adds a row behind the others.
    pub(crate) fn push(&mut self, row: &[u32]) -> Result<(), AllocError>
        ensures { OnOk result (self.new ≡ self.old ++ row.now ∷ []) }
    {
        let start = self.flat.len();
        self.flat.extend_from_slice(row)?;
        let end = self.flat.len();
        self.rows.push(Extent { start, end })?;
        Ok(())
    }

    /// The rows at these places, in this order, over the same flat list.
    pub(crate) fn picked(self, alloc: Global, places: &[u32]) -> Result<Edges, AllocError>
        requires { (k : ℕ) → k < length places.now → slice_index places.now k < length self }
        ensures { IfOk result (λ e. e ≡ map (row self) places.now) }
    {
        let Edges { rows, flat } = self;
        let mut picked = Vec::with_capacity(alloc, places.len())?;
        for place in places {
            picked.push(rows[*place as usize])?;
        }
        Ok(Edges { rows: picked, flat })
    }

    /// For each number below a limit the places of the rows that have it, once for each time, in order.
    pub(crate) fn inverse(&self, alloc: Global, limit: usize) -> Result<Edges, AllocError>
        requires { length self.now ≤ 2 ^ 32 }
        ensures { IfOk result (λ e. IsInverse self.now limit e) }
    {
        let mut chains = Chains::new(alloc, limit)?;
        for place in (0..self.len()).rev() {
            chains.lead(place as u32, self.of(place))?;
        }
        chains.rows(alloc)
    }
}
