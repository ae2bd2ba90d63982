//! Kept pieces by group and name.
ghost use Rattle.std.specs.Prelude.{◌≡◌, ◌++◌, flat_map, IfOk, OnOk};
ghost use Rattle.emit.specs.Chosen.{due, is_of, unit_due, values};
ghost use Rattle.emit.specs.Joins.{IsInNameOrder, is_function};

use indexmap::IndexSet;
use ir_tree::Rows;
use lto_task::Piece;
use std::alloc::{AllocError, Global};

/// Where a piece stands in the linked module.
#[derive(Clone, Copy)]
pub(crate) enum Group {
    Variables,
    Functions,
}

/// Whether a piece is a function: its text begins as the definition of one does.
fn is_function(piece: &Piece) -> bool
    ensures { result ≡ is_function piece.now }
{
    piece.text.as_slice().starts_with(b"define ")
}

fn is_of(group: Group, piece: &Piece) -> bool
    ensures { result ≡ is_of group piece.now }
{
    match group {
        Group::Variables => !is_function(piece),
        Group::Functions => is_function(piece),
    }
}

/// Adds a piece, where it is kept and of the group.
fn push_piece<'a>(
    chosen: &mut Vec<&'a Piece>,
    kept: &IndexSet<&'a [u8]>,
    group: Group,
    piece: &'a Piece,
) -> Result<(), AllocError>
    ensures { OnOk result (values chosen.new.items ≡ values chosen.old.items ++ due kept.now.keys group piece.entry.now) }
{
    if kept.contains(piece.name.as_slice()) && is_of(group, piece) {
        chosen.push(piece)?;
    }
    Ok(())
}

fn push_unit<'a>(
    chosen: &mut Vec<&'a Piece>,
    kept: &IndexSet<&'a [u8]>,
    group: Group,
    pieces: &'a [Piece],
) -> Result<(), AllocError>
    ensures { OnOk result (values chosen.new.items ≡ values chosen.old.items ++ unit_due kept.now.keys group pieces.entry.now) }
{
    for piece in pieces {
        push_piece(chosen, kept, group, piece)?;
    }
    Ok(())
}

/// The kept pieces of a group, in the order in which they are given.
fn given<'a>(
    alloc: Global,
    units: &'a [Rows<Piece>],
    kept: &IndexSet<&'a [u8]>,
    group: Group,
) -> Result<Vec<&'a Piece>, AllocError>
    ensures { IfOk result (λ chosen. values chosen.items ≡ flat_map (unit_due kept.now.keys group) units.entry.now) }
{
    let mut chosen = Vec::new(alloc);
    for unit in units {
        push_unit(&mut chosen, kept, group, unit.as_slice())?;
    }
    Ok(chosen)
}

/// Sorts pieces by name, in the order of bytes.
fn sort_pieces(chosen: &mut Vec<&Piece>) -> Result<(), AllocError>
    ensures { OnOk result (IsInNameOrder (values chosen.old.items) (values chosen.new.items)) }
{
    chosen.sort_by(|a, b| a.name.as_slice().cmp(b.name.as_slice()))?;
    Ok(())
}

/// The kept pieces of a group, by name; those of one name in the order in which they are given.
pub(crate) fn sorted<'a>(
    alloc: Global,
    units: &'a [Rows<Piece>],
    kept: &IndexSet<&'a [u8]>,
    group: Group,
) -> Result<Vec<&'a Piece>, AllocError>
    ensures { IfOk result (λ chosen. IsInNameOrder (flat_map (unit_due kept.now.keys group) units.entry.now) (values chosen.items)) }
{
    let mut chosen = given(alloc, units, kept, group)?;
    sort_pieces(&mut chosen)?;
    Ok(chosen)
}
