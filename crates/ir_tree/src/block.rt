//! Basic blocks and their terminators (LangRef, "Terminator Instructions").

use crate::instr::{Line, Phi};
use crate::operand::{Argument, Operand, Reg};
use crate::rows::Rows;

/// A case of a `switch`: the type that is written, a number of `width` bits, and its target.
///
/// `width` is the type's own, but for `true` and `false`, whose width is 1.
#[derive(Clone, Copy, Debug, PartialEq, Eq)]
pub struct Case {
    pub reg: Reg,
    pub width: u8,
    pub bits: u64,
    pub target: u32,
}

/// How a block ends.
#[derive(Drop)]
pub enum Terminator {
    Return(Option<Argument>),
    Jump(u32),
    Branch {
        condition: Operand,
        if_true: u32,
        if_false: u32,
    },
    Switch {
        width: u8,
        value: Operand,
        default: u32,
        cases: Rows<Case>,
    },
    Unreachable,
}

/// A basic block under its number, which it shares one counter with the function's locals for.
///
/// `phis` are the phis that stand first; all other instructions are `lines`.
pub struct Block {
    pub number: u32,
    pub phis: Rows<Phi>,
    pub lines: Rows<Line>,
    pub end: Terminator,
}

// Written out, so that it is one call wherever a block is dropped.
impl Drop for Block {
    fn drop(self) {
        let Block {
            number: _,
            phis,
            lines,
            end,
        } = self;
        drop(phis);
        drop(lines);
        drop(end);
    }
}
