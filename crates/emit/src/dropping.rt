//! What a unit keeps of its pieces.
ghost use Rattle.std.specs.Prelude.{◌≡◌, ◌++◌, ◌∷◌, [], IfOk, OnOk, if◌then◌else◌, length, map};
ghost use Rattle.emit.specs.Graphs.{is_key};
ghost use Rattle.emit.specs.Strips.{AreMarks, IsStripped, chosen};

use crate::kept::kept_of;
use indexmap::IndexSet;
use ir_tree::{Rows, Text};
use lto_task::Piece;
use std::alloc::{AllocError, Global};

/// Whether the piece's name is one of these.
fn is_kept(kept: &IndexSet<&[u8]>, piece: &Piece) -> bool
    ensures { result ≡ is_key kept.now.keys piece.now.name }
{
    kept.contains(piece.name.as_slice())
}

/// The same for each piece.
fn marks_by(
    alloc: Global,
    pieces: &[Piece],
    kept: &IndexSet<&[u8]>,
) -> Result<Vec<bool>, AllocError>
    ensures { IfOk result (λ marks. marks.items ≡ map (λ p. is_key kept.now.keys p.name) pieces.now) }
{
    let mut marks = Vec::new(alloc);
    for piece in pieces {
        marks.push(is_kept(kept, piece))?;
    }
    Ok(marks)
}

/// For each piece whether it is kept.
fn marks_of(alloc: Global, offers: &[Text], pieces: &[Piece]) -> Result<Vec<bool>, AllocError>
    ensures { IfOk result (λ marks. AreMarks (record { offers = offers.now; pieces = pieces.now }) marks.items) }
{
    let kept = kept_of(alloc, pieces, offers)?;
    marks_by(alloc, pieces, &kept)
}

/// Adds the piece, where its mark is set.
fn keep(kept: &mut Rows<Piece>, piece: Piece, mark: bool) -> Result<(), AllocError>
    ensures { OnOk result (kept.new ≡ kept.old ++ (if mark then piece ∷ [] else [])) }
{
    if mark {
        kept.push(piece)?;
    }
    Ok(())
}

/// The pieces whose marks are set, in their order.
fn chosen(alloc: Global, pieces: Vec<Piece>, marks: &[bool]) -> Result<Rows<Piece>, AllocError>
    requires { length marks.now ≡ length pieces.items }
    ensures { IfOk result (λ kept. kept ≡ chosen pieces.items marks.now) }
{
    let mut kept = Rows::new(alloc);
    let mut place = 0;
    for piece in pieces {
        keep(&mut kept, piece, marks[place])?;
        place += 1;
    }
    Ok(kept)
}

/// Of the pieces of a module those that are reached from the names that it offers to others by what pieces refer to, in their order.
/// Beside want of memory, `2^32` names or more are refused as too many.
pub fn strip(alloc: Global, offers: &[Text], pieces: Rows<Piece>) -> Result<Rows<Piece>, AllocError>
    ensures { IfOk result (IsStripped (record { offers = offers.now; pieces = pieces })) }
{
    let marks = marks_of(alloc, offers, pieces.as_slice())?;
    chosen(alloc, pieces.into_vec(), &marks)
}
