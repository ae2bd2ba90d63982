//! What a value is compiled to, as a piece.
ghost use Rattle.std.specs.Prelude.{IfOk};
ghost use Rattle.ir_tree.specs.Wholes.{GlobalSound};
ghost use Rattle.back_end.specs.Inlinable.{AreSound};
ghost use Rattle.back_end.specs.Walking.{bodies_in};
ghost use Rattle.link_one.specs.Linked.{IsLinkedGlobal};
ghost use Rattle.link_one.specs.Units.{IsLinkedPiece};

use back_end::{Bodies, compile};
use emit::Exported;
use ir_flow::AnalysedValue;
use ir_tree::{Duplicate, GlobalValue};
use lto_task::{Piece, piece_of};
use std::alloc::{AllocError, Global};

/// A variable as it is, and a function as the back end makes it with these bodies.
fn linked_global(
    alloc: Global,
    bodies: &Bodies<'_>,
    global: &AnalysedValue,
) -> Result<GlobalValue, AllocError>
    requires sound { GlobalSound global.now }
    requires bodies { AreSound (bodies_in bodies.now) }
    ensures { IfOk result (λ g. IsLinkedGlobal (bodies_in bodies.now) global.now g) }
{
    match global.value() {
        GlobalValue::Variable(variable) => {
            let variable = variable.duplicate(alloc)?;
            Ok(GlobalValue::Variable(variable))
        }
        GlobalValue::Function(function) => {
            let function = compile(alloc, bodies, function, global.flow())?;
            Ok(GlobalValue::Function(function))
        }
    }
}

/// The piece of what a value is compiled to, printed at once.
pub(crate) fn linked_piece(
    alloc: Global,
    bodies: &Bodies<'_>,
    exported: &Exported<'_>,
    global: &AnalysedValue,
) -> Result<Piece, AllocError>
    requires sound { GlobalSound global.now }
    requires bodies { AreSound (bodies_in bodies.now) }
    ensures { IfOk result (IsLinkedPiece (bodies_in bodies.now) exported.now.exports.now global.now) }
{
    let mut linked = linked_global(alloc, bodies, global)?;
    exported.settle(&mut linked);
    piece_of(alloc, &linked)
}
