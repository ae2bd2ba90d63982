//! Instructions and phis (LangRef, "Instruction Reference").

use crate::operand::{Argument, Operand, Reg};
use crate::rows::Rows;
use crate::shape::Shape;

/// The binary and the bitwise binary operations on integers.
#[derive(Clone, Copy, Debug, PartialEq, Eq)]
pub enum BinaryOp {
    Add,
    Sub,
    Mul,
    Shl,
    Udiv,
    Sdiv,
    Lshr,
    Ashr,
    Urem,
    Srem,
    And,
    Or,
    Xor,
}

/// The conditions of `icmp`.
#[derive(Clone, Copy, Debug, PartialEq, Eq)]
pub enum Predicate {
    Eq,
    Ne,
    Ugt,
    Uge,
    Ult,
    Ule,
    Sgt,
    Sge,
    Slt,
    Sle,
}

/// The conversions between integers.
#[derive(Clone, Copy, Debug, PartialEq, Eq)]
pub enum CastOp {
    Zext,
    Sext,
    Trunc,
}

/// The flags of a binary operation whose breach makes its result poison.
#[derive(Clone, Copy, Debug, PartialEq, Eq)]
pub struct Flags {
    pub nuw: bool,
    pub nsw: bool,
    pub exact: bool,
}

/// An instruction that is no terminator, without the local that takes its result.
///
/// Widths are in bits, alignments in bytes. The arms of a `select` keep a type each, as they are
/// written. A phi that stands where phis may stand is in its block's `phis`; `Phi` is one that stands
/// behind another instruction, which reads and is never sound.
#[derive(Drop)]
pub enum Instr {
    Binary {
        op: BinaryOp,
        flags: Flags,
        width: u8,
        left: Operand,
        right: Operand,
    },
    Icmp {
        predicate: Predicate,
        reg: Reg,
        left: Operand,
        right: Operand,
    },
    Cast {
        op: CastOp,
        from: Reg,
        value: Operand,
        to: Reg,
    },
    Select {
        condition: Operand,
        if_true: Argument,
        if_false: Argument,
    },
    Freeze {
        reg: Reg,
        value: Operand,
    },
    Alloca {
        shape: Shape,
        align: u64,
    },
    Load {
        reg: Reg,
        address: Operand,
        align: u64,
    },
    Store {
        reg: Reg,
        value: Operand,
        address: Operand,
        align: u64,
    },
    /// A `getelementptr`: the address of a part of a shape.
    Address {
        inbounds: bool,
        shape: Shape,
        base: Operand,
        indices: Rows<Argument>,
    },
    Call {
        result: Option<Reg>,
        callee: Operand,
        arguments: Rows<Argument>,
    },
    Phi {
        reg: Reg,
        incoming: Rows<Incoming>,
    },
}

/// One line of a block: an instruction, and the local that takes its result.
pub struct Line {
    pub local: Option<u32>,
    pub instr: Instr,
}

// Written out, so that it is one call wherever a line is dropped.
impl Drop for Line {
    fn drop(self) {
        let Line { local: _, instr } = self;
        drop(instr);
    }
}

/// What a phi takes on an edge from the block `from`.
#[derive(Drop)]
pub struct Incoming {
    pub from: u32,
    pub value: Operand,
}

/// A phi node: the local `local` gets the value of the edge by which its block is entered.
pub struct Phi {
    pub local: u32,
    pub reg: Reg,
    pub incoming: Rows<Incoming>,
}

// Written out, so that it is one call wherever a phi is dropped.
impl Drop for Phi {
    fn drop(self) {
        let Phi {
            local: _,
            reg: _,
            incoming,
        } = self;
        drop(incoming);
    }
}
