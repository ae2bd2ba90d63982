//! Instructions over sources.

use crate::source::{Source, Typed};
use ir_tree::{BinaryOp, CastOp, Flags, Predicate, Reg, Shape};

/// An instruction that gives a value and changes nothing else, with sources in place of its operands.
///
/// `Poison` is a phi that stands behind another instruction, which is never sound.
#[derive(Drop)]
pub enum Compute<'a> {
    Binary {
        op: BinaryOp,
        flags: Flags,
        width: u8,
        left: Source,
        right: Source,
    },
    Compare {
        predicate: Predicate,
        reg: Reg,
        left: Source,
        right: Source,
    },
    Cast {
        op: CastOp,
        from: Reg,
        to: Reg,
        value: Source,
    },
    Select {
        condition: Source,
        if_true: Source,
        if_false: Source,
    },
    Freeze {
        reg: Reg,
        value: Source,
    },
    Load {
        reg: Reg,
        address: Source,
        align: u64,
    },
    Address {
        inbounds: bool,
        shape: &'a Shape,
        base: Source,
        indices: Vec<Typed>,
    },
    Poison,
}

/// An instruction with sources in place of its operands, and the size in bytes in place of the shape of
/// an `alloca`.
#[derive(Drop)]
pub enum Task<'a> {
    Compute(Compute<'a>),
    Reserve {
        size: usize,
        align: u64,
    },
    Store {
        reg: Reg,
        value: Source,
        address: Source,
        align: u64,
    },
    Call {
        result: Option<Reg>,
        callee: Source,
        arguments: Vec<Typed>,
    },
}
