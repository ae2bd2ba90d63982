//! Declarations of the functions that the system gives to a program (ISO C, section 7.21.7).
ghost use Rattle.std.specs.Prelude.{◌≡◌, ◌++◌, ◌&&◌, not, codes, OnOk};
ghost use Rattle.emit.specs.Chosen.{any_has, line_due};
ghost use Rattle.emit.specs.Joins.{getchar_line, has_piece, putchar_line};
ghost use Rattle.emit.specs.Graphs.{is_key};

use indexmap::IndexSet;
use ir_tree::{Rows, Text};
use lto_task::Piece;
use std::alloc::AllocError;

/// Whether one of these pieces has the name.
fn has_piece(pieces: &[Piece], name: &[u8]) -> bool
    ensures { result ≡ has_piece pieces.now name.now }
{
    for piece in pieces {
        if piece.name.equals(name) {
            return true;
        }
    }
    false
}

/// Whether a piece of one of these units has the name.
fn any_has(units: &[Rows<Piece>], name: &[u8]) -> bool
    ensures { result ≡ any_has units.now name.now }
{
    for unit in units {
        if has_piece(unit.as_slice(), name) {
            return true;
        }
    }
    false
}

/// Whether a name is kept and no piece has it.
fn is_due(units: &[Rows<Piece>], kept: &IndexSet<&[u8]>, name: &[u8]) -> bool
    ensures { result ≡ (is_key kept.now.keys name.now && not (any_has units.now name.now)) }
{
    kept.contains(name) && !any_has(units, name)
}

/// Adds the line that declares a function, where it is due.
fn push_line(
    out: &mut Text,
    units: &[Rows<Piece>],
    kept: &IndexSet<&[u8]>,
    name: &[u8],
    line: &[u8],
) -> Result<(), AllocError>
    ensures { OnOk result (out.new ≡ out.old ++ line_due kept.now.keys units.now name.now line.now) }
{
    if is_due(units, kept, name) {
        out.append(line)?;
    }
    Ok(())
}

/// Adds declarations of the outside's functions that are in use and that nobody defines.
pub(crate) fn push_hosts(
    out: &mut Text,
    units: &[Rows<Piece>],
    kept: &IndexSet<&[u8]>,
) -> Result<(), AllocError>
    ensures { OnOk result (out.new ≡ out.old ++ (line_due kept.now.keys units.now (codes "getchar") getchar_line ++ line_due kept.now.keys units.now (codes "putchar") putchar_line)) }
{
    push_line(out, units, kept, b"getchar", b"declare i32 @getchar()\n")?;
    push_line(out, units, kept, b"putchar", b"declare i32 @putchar(i32)\n")
}
