//! That pieces can be written.
ghost use Rattle.std.specs.Prelude.{◌<◌, ◌^◌, All, length};
ghost use Rattle.ir_tree.specs.Names.{AllBytes};
ghost use Rattle.lto_task.specs.Units.{IsWritten};

use ir_tree::Text;
use lto_task::{Piece, all_bytes};

/// That these names are.
fn all_names(names: &[Text])
    ensures bytes { All AllBytes names.now }
    ensures count { length names.now < 2 ^ 64 }
{
    for name in names {
        all_bytes(name.as_slice());
    }
}

/// That the piece's names are bytes, and that its counts are those that the machine has.
fn is_written(piece: &Piece)
    ensures { IsWritten piece.now }
{
    all_bytes(piece.name.as_slice());
    all_names(piece.refs.as_slice());
    let _bytes = piece.text.len();
}

/// The same of each of these pieces.
pub(crate) fn are_written(pieces: &[Piece])
    ensures { All IsWritten pieces.now }
{
    for piece in pieces {
        is_written(piece);
    }
}
