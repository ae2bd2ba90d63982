//! A fact of a local, and where it holds.

use ir_tree::Operand;
use lto_sets::Bits;

/// That `value` may stand for `local` at the points `at`: counted from 0 in the order of the text, in each block the
/// point behind its phis and then one behind each other instruction.
#[derive(Drop)]
pub struct Fact {
    pub local: u32,
    pub value: Operand,
    pub at: Bits,
}
