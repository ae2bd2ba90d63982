//! The graph of references: names with numbers, and where each leads.
ghost use Rattle.std.specs.Prelude.{◌≡◌, ◌++◌, ℕ, List, [], length, IfOk, OnOk};
ghost use Rattle.emit.specs.Graphs.{AreStarts, Edge, IsNumber, Linked, edge, edges, edges_of};

use indexmap::IndexSet;
use ir_tree::{Rows, Text};
use lto_task::Piece;
use std::alloc::{AllocError, Global};

/// Names, which go by number, and for each the numbers of the names that its pieces refer to.
#[derive(Drop)]
pub(crate) struct Graph<'a> {
    pub names: IndexSet<&'a [u8]>,
    pub rows: Vec<Rows<u32>>,
}

/// A place in a table as a number. `2^32` and more are refused.
fn as_number(place: usize) -> Result<u32, AllocError>
    ensures { IfOk result (λ number. number ≡ place) }
{
    if place > 0xFFFF_FFFF {
        return Err(AllocError);
    }
    Ok(place as u32)
}

impl<'a> Graph<'a> {
    /// Of no names.
    pub fn new(alloc: Global) -> Graph<'a>
        ensures long { length result.rows.items ≡ length result.names.keys }
        ensures linked { Linked [] result.names.keys result.rows.items }
    {
        let names = IndexSet::new(alloc);
        let rows = Vec::new(alloc);
        Graph { names, rows }
    }

    /// The number of a name: its own, or where it has none yet the next, which leads nowhere.
    fn number_of(&mut self, alloc: Global, name: &'a [u8]) -> Result<u32, AllocError>
        requires { length self.old.rows.items ≡ length self.old.names.keys }
        ensures long { OnOk result (length self.new.rows.items ≡ length self.new.names.keys) }
        ensures number { IfOk result (λ n. IsNumber self.new.names.keys name.entry.now n) }
        ensures stays { OnOk result ((other : List ℕ) (n : ℕ) → IsNumber self.old.names.keys other n → IsNumber self.new.names.keys other n) }
        ensures linked { OnOk result ((es : List Edge) → Linked es self.old.names.keys self.old.rows.items → Linked es self.new.names.keys self.new.rows.items) }
    {
        let (place, is_new) = self.names.insert_full(name)?;
        let number = as_number(place)?;
        if is_new {
            let none = Rows::new(alloc);
            self.rows.push(none)?;
        }
        Ok(number)
    }

    /// Leads from a name to another.
    fn link(&mut self, alloc: Global, from: &'a [u8], to: &'a [u8]) -> Result<(), AllocError>
        requires { length self.old.rows.items ≡ length self.old.names.keys }
        ensures long { OnOk result (length self.new.rows.items ≡ length self.new.names.keys) }
        ensures linked { OnOk result ((es : List Edge) → Linked es self.old.names.keys self.old.rows.items → Linked (es ++ edge from.entry.now to.entry.now) self.new.names.keys self.new.rows.items) }
    {
        let first = self.number_of(alloc, from)?;
        let second = self.number_of(alloc, to)?;
        self.rows[first as usize].push(second)?;
        Ok(())
    }

    /// Leads from the name of a piece to those that it refers to.
    fn link_piece(&mut self, alloc: Global, piece: &'a Piece) -> Result<(), AllocError>
        requires { length self.old.rows.items ≡ length self.old.names.keys }
        ensures long { OnOk result (length self.new.rows.items ≡ length self.new.names.keys) }
        ensures linked { OnOk result ((es : List Edge) → Linked es self.old.names.keys self.old.rows.items → Linked (es ++ edges_of piece.entry.now) self.new.names.keys self.new.rows.items) }
    {
        let from = piece.name.as_slice();
        let refs = piece.refs.as_slice();
        for to in refs {
            self.link(alloc, from, to.as_slice())?;
        }
        Ok(())
    }

    /// The same for each of these pieces.
    pub fn link_pieces(&mut self, alloc: Global, pieces: &'a [Piece]) -> Result<(), AllocError>
        requires { length self.old.rows.items ≡ length self.old.names.keys }
        ensures long { OnOk result (length self.new.rows.items ≡ length self.new.names.keys) }
        ensures linked { OnOk result ((es : List Edge) → Linked es self.old.names.keys self.old.rows.items → Linked (es ++ edges pieces.entry.now) self.new.names.keys self.new.rows.items) }
    {
        for piece in pieces {
            self.link_piece(alloc, piece)?;
        }
        Ok(())
    }

    /// The numbers of these names.
    pub fn numbers_of(&mut self, alloc: Global, names: &'a [Text]) -> Result<Vec<u32>, AllocError>
        requires { length self.old.rows.items ≡ length self.old.names.keys }
        ensures starts { IfOk result (λ starts. AreStarts self.new.names.keys names.entry.now starts.items) }
        ensures linked { OnOk result ((es : List Edge) → Linked es self.old.names.keys self.old.rows.items → Linked es self.new.names.keys self.new.rows.items) }
    {
        let mut numbers = Vec::new(alloc);
        for name in names {
            let number = self.number_of(alloc, name.as_slice())?;
            numbers.push(number)?;
        }
        Ok(numbers)
    }
}
