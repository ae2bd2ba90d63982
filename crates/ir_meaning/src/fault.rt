//! Where a run reaches undefined behaviour or an uninitialised byte.

use ir_tree::Symbol;

/// An instruction, phi or terminator of a function, counted from 1 in the order of the text.
#[derive(Drop, PartialEq, Eq)]
pub struct Place {
    pub symbol: Symbol,
    pub instruction: u32,
}
