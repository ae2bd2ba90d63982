//! Pieces and names in the order of bytes.
ghost use Rattle.std.specs.Cmp.Lexicographic.{slice_cmp};
ghost use Rattle.std.specs.Ordering.{nat_cmp};
ghost use Rattle.std.specs.Prelude.{◌≡◌, ◌↔◌, All, IsTrue, map};
ghost use Rattle.std.specs.declared.cmp.Ordering.TheVariants.{Less};
ghost use Rattle.lto_task.specs.Pieces.{NamesRise};

use crate::piece::Piece;
use ir_tree::Text;
use std::cmp::Ordering;

fn is_before(name: &[u8], other: &[u8]) -> bool
    ensures { IsTrue result ↔ (slice_cmp nat_cmp name.now other.now ≡ Less) }
{
    match name.cmp(other) {
        Ordering::Less => true,
        Ordering::Equal | Ordering::Greater => false,
    }
}

/// Whether each name comes before the next.
fn names_rise(names: &[Text]) -> bool
    ensures { IsTrue result ↔ NamesRise names.now }
{
    for i in 1..names.len() {
        if !is_before(names[i - 1].as_slice(), names[i].as_slice()) {
            return false;
        }
    }
    true
}

/// Whether each piece's name comes before that of the next.
fn pieces_rise(pieces: &[Piece]) -> bool
    ensures { IsTrue result ↔ NamesRise (map (λ p. p.name) pieces.now) }
{
    for i in 1..pieces.len() {
        if !is_before(pieces[i - 1].name.as_slice(), pieces[i].name.as_slice()) {
            return false;
        }
    }
    true
}

/// Whether each piece refers to names that rise.
fn refs_rise(pieces: &[Piece]) -> bool
    ensures { IsTrue result ↔ All (λ p. NamesRise p.refs) pieces.now }
{
    for piece in pieces {
        if !names_rise(piece.refs.as_slice()) {
            return false;
        }
    }
    true
}

/// Whether pieces are in the order of a unit.
pub(crate) fn is_in_order(pieces: &[Piece]) -> bool
    ensures { IsTrue result ↔ (All (λ p. NamesRise p.refs) pieces.now × NamesRise (map (λ p. p.name) pieces.now)) }
{
    refs_rise(pieces) && pieces_rise(pieces)
}
