//! The text of the linked module.
ghost use Rattle.std.specs.Prelude.{◌≡◌, ◌++◌, ◌↔◌, ℕ, List, true, flat_map, IfOk, OnOk};
ghost use Rattle.emit.specs.Chosen.{unit_due, values};
ghost use Rattle.emit.specs.Graphs.{is_key};
ghost use Rattle.emit.specs.Joins.{IsInNameOrder, IsJoin, IsUsed, lines_of};
ghost use Rattle.lto_task.specs.declared.piece.Piece.{Piece};

use crate::host::push_hosts;
use crate::kept::kept;
use crate::order::{Group, sorted};
use indexmap::IndexSet;
use ir_tree::{Rows, Text};
use lto_task::Piece;
use std::alloc::{AllocError, Global};

/// Adds the lines of these pieces.
fn push_lines(out: &mut Text, pieces: &[&Piece]) -> Result<(), AllocError>
    ensures { OnOk result (out.new ≡ out.old ++ lines_of (values pieces.now)) }
{
    for piece in pieces {
        out.append(piece.text.as_slice())?;
    }
    Ok(())
}

/// Adds the lines of the kept pieces of a group, by name.
fn push_group<'a>(
    alloc: Global,
    out: &mut Text,
    units: &'a [Rows<Piece>],
    kept: &IndexSet<&'a [u8]>,
    group: Group,
) -> Result<(), AllocError>
    ensures { OnOk result ((chosen : List Piece) × IsInNameOrder (flat_map (unit_due kept.now.keys group) units.entry.now) chosen × (out.new ≡ out.old ++ lines_of chosen)) }
{
    let chosen = sorted(alloc, units, kept, group)?;
    push_lines(out, &chosen)
}

/// The text behind this header, where these names are kept.
fn joined<'a>(
    alloc: Global,
    units: &'a [Rows<Piece>],
    header: &[u8],
    kept: &IndexSet<&'a [u8]>,
) -> Result<Text, AllocError>
    ensures { IfOk result (λ text. (exports : List (List ℕ))
        → ((name : List ℕ) → (is_key kept.now.keys name ≡ true) ↔ IsUsed exports (flat_map (λ u. u) units.entry.now) name)
        → IsJoin exports (flat_map (λ u. u) units.entry.now) header.now text) }
{
    let mut out = Text::copied(alloc, header)?;
    push_group(alloc, &mut out, units, kept, Group::Variables)?;
    push_hosts(&mut out, units, kept)?;
    push_group(alloc, &mut out, units, kept, Group::Functions)?;
    Ok(out)
}

/// The text of the linked module of these pieces, which are given by module, where these names are exported. The header is the
/// text of the target lines.
///
/// Kept are the pieces that are reached from the exported names by what pieces refer to. Behind the header stand variables, then
/// declarations of functions of the outside that are in use and that no piece defines, then functions, each group by name in the
/// order of bytes. A piece whose text begins `define ` is a function, and every other one a variable. A name that is exported or
/// referred to and that nobody defines has no line, unless it is one of the outside's functions. Beside want of memory, `2^32`
/// names or more are refused as too many.
pub fn emit(
    alloc: Global,
    units: &[Rows<Piece>],
    header: &[u8],
    exports: &[Text],
) -> Result<Text, AllocError>
    ensures { IfOk result (λ text. IsJoin exports.now (flat_map (λ u. u) units.now) header.now text) }
{
    let kept = kept(alloc, units, exports)?;
    joined(alloc, units, header, &kept)
}
