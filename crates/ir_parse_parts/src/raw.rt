//! A module's items with their names as they are written.
//!
//! Every list is flat but the parts of shapes, which nest at most 32 deep: the parts of initialisers
//! and the levels of constant addresses nest as deep as the text does, and lie one behind the other.

use crate::address::Address;
use crate::name::Name;
use crate::shape::Typed;
use ir_tree::{BinaryOp, CastOp, Flags, Linkage, Predicate, Reg, Rows};

/// What an instruction, a terminator or an initialiser reads.
///
/// A number has the width of its type; `true` and `false` are numbers of width 1.
pub enum Operand {
    Local(Name),
    Global(Name),
    Number { width: u8, bits: u64 },
    Null,
    Poison(Reg),
    Address(Address),
}

// Written out, so that it is one call wherever an operand is dropped.
impl Drop for Operand {
    fn drop(self) {
        match self {
            Operand::Local(name) => drop(name),
            Operand::Global(name) => drop(name),
            Operand::Number { width: _, bits: _ } => {}
            Operand::Null => {}
            Operand::Poison(_) => {}
            Operand::Address(address) => drop(address),
        }
    }
}

/// An operand with the type that is written before it.
#[derive(Drop)]
pub struct Argument {
    pub reg: Reg,
    pub operand: Operand,
}

/// An entry of a phi: a value, and the block that it comes from.
pub struct Incoming {
    pub value: Operand,
    pub from: Name,
}

// Written out, so that it is one call wherever an entry is dropped.
impl Drop for Incoming {
    fn drop(self) {
        let Incoming { value, from } = self;
        drop(value);
        drop(from);
    }
}

/// An instruction that is no terminator, in the order of LangRef, "Instruction Reference". Widths are in
/// bits, alignments in bytes; an alignment that isn't written is `None`, and the count of an `alloca` that
/// isn't is 1.
pub enum Instr {
    Binary {
        op: BinaryOp,
        flags: Flags,
        width: u8,
        left: Operand,
        right: Operand,
    },
    Alloca {
        typed: Typed,
        count: u64,
        align: Option<u64>,
    },
    Load {
        reg: Reg,
        address: Operand,
        align: Option<u64>,
    },
    Store {
        reg: Reg,
        value: Operand,
        address: Operand,
        align: Option<u64>,
    },
    Address {
        inbounds: bool,
        typed: Typed,
        base: Operand,
        indices: Rows<Argument>,
    },
    Cast {
        op: CastOp,
        from: Reg,
        value: Operand,
        to: Reg,
    },
    Icmp {
        predicate: Predicate,
        reg: Reg,
        left: Operand,
        right: Operand,
    },
    Phi {
        reg: Reg,
        incoming: Rows<Incoming>,
    },
    Select {
        condition: Operand,
        if_true: Argument,
        if_false: Argument,
    },
    Freeze {
        reg: Reg,
        value: Operand,
    },
    Call {
        result: Option<Reg>,
        callee: Operand,
        arguments: Rows<Argument>,
    },
}

// Written out, so that it is one call wherever an instruction is dropped.
impl Drop for Instr {
    fn drop(self) {
        match self {
            Instr::Binary {
                op: _,
                flags: _,
                width: _,
                left,
                right,
            } => {
                drop(left);
                drop(right);
            }
            Instr::Icmp {
                predicate: _,
                reg: _,
                left,
                right,
            } => {
                drop(left);
                drop(right);
            }
            Instr::Cast {
                op: _,
                from: _,
                value,
                to: _,
            } => drop(value),
            Instr::Select {
                condition,
                if_true,
                if_false,
            } => {
                drop(condition);
                drop(if_true);
                drop(if_false);
            }
            Instr::Freeze { reg: _, value } => drop(value),
            Instr::Phi { reg: _, incoming } => drop(incoming),
            Instr::Alloca {
                typed,
                count: _,
                align: _,
            } => drop(typed),
            Instr::Load {
                reg: _,
                address,
                align: _,
            } => drop(address),
            Instr::Store {
                reg: _,
                value,
                address,
                align: _,
            } => {
                drop(value);
                drop(address);
            }
            Instr::Address {
                inbounds: _,
                typed,
                base,
                indices,
            } => {
                drop(typed);
                drop(base);
                drop(indices);
            }
            Instr::Call {
                result: _,
                callee,
                arguments,
            } => {
                drop(callee);
                drop(arguments);
            }
        }
    }
}

/// An instruction, the name that its result is given, and the line of its first token.
pub struct WrittenLine {
    pub name: Option<Name>,
    pub instr: Instr,
    pub line: u32,
}

// Written out, so that it is one call wherever a line is dropped.
impl Drop for WrittenLine {
    fn drop(self) {
        let WrittenLine {
            name,
            instr,
            line: _,
        } = self;
        drop(name);
        drop(instr);
    }
}

/// A case of a `switch`: the type that is written, a number of `width` bits, and its target.
#[derive(Drop)]
pub struct Case {
    pub reg: Reg,
    pub width: u8,
    pub bits: u64,
    pub target: Name,
}

/// How a block ends.
pub enum Terminator {
    Return(Option<Argument>),
    Jump(Name),
    Branch {
        condition: Operand,
        if_true: Name,
        if_false: Name,
    },
    Switch {
        width: u8,
        value: Operand,
        default: Name,
        cases: Rows<Case>,
    },
    Unreachable,
}

// Written out, so that it is one call wherever a terminator is dropped.
impl Drop for Terminator {
    fn drop(self) {
        match self {
            Terminator::Return(argument) => drop(argument),
            Terminator::Jump(target) => drop(target),
            Terminator::Branch {
                condition,
                if_true,
                if_false,
            } => {
                drop(condition);
                drop(if_true);
                drop(if_false);
            }
            Terminator::Switch {
                width: _,
                value,
                default,
                cases,
            } => {
                drop(value);
                drop(default);
                drop(cases);
            }
            Terminator::Unreachable => {}
        }
    }
}

/// A basic block: its label, where it has one, its instructions, its terminator, and the line of the
/// terminator's first token.
pub struct Block {
    pub label: Option<Name>,
    pub lines: Rows<WrittenLine>,
    pub end: Terminator,
    pub end_line: u32,
}

// Written out, so that it is one call wherever a block is dropped.
impl Drop for Block {
    fn drop(self) {
        let Block {
            label,
            lines,
            end,
            end_line: _,
        } = self;
        drop(label);
        drop(lines);
        drop(end);
    }
}

/// A parameter: its type and its name.
#[derive(Drop)]
pub struct Param {
    pub reg: Reg,
    pub name: Option<Name>,
}

/// What stands before the blocks of a function. The linkage is the one that is written, or
/// `External`; `result` is `None` for `void`; `groups` are the attribute groups that it names.
#[derive(Drop)]
pub struct FunctionHeader {
    pub linkage: Linkage,
    pub result: Option<Reg>,
    pub name: Name,
    pub params: Rows<Param>,
    pub noinline: bool,
    pub optnone: bool,
    pub groups: Rows<Name>,
}

/// An initialiser without parts, or the beginning of one with parts. `Bytes` has the string, and
/// `Number` a number behind a shape that is no scalar as it is written: a type name may stand for one.
#[derive(Drop)]
pub enum InitHead {
    Plain(Operand),
    Zeros,
    Bytes(Name),
    Number(Name),
    Array,
    Struct { packed: bool },
}

/// A part of an initialiser with its shape, or the end of the parts of one that began before.
pub enum InitPart {
    Typed { typed: Typed, head: InitHead },
    End,
}

// Written out, so that it is one call wherever a part is dropped.
impl Drop for InitPart {
    fn drop(self) {
        match self {
            InitPart::Typed { typed, head } => {
                drop(typed);
                drop(head);
            }
            InitPart::End => {}
        }
    }
}

/// An initialiser: its beginning, and its parts in the order of the text, each before its own parts,
/// which an `End` closes.
#[derive(Drop)]
pub struct Init {
    pub root: InitHead,
    pub parts: Rows<InitPart>,
}

/// A global variable, and the line of its first token. One without `init` is a declaration.
pub struct Variable {
    pub name: Name,
    pub linkage: Linkage,
    pub constant: bool,
    pub typed: Typed,
    pub init: Option<Init>,
    pub align: Option<u64>,
    pub line: u32,
}

// Written out, so that it is one call wherever a variable is dropped.
impl Drop for Variable {
    fn drop(self) {
        let Variable {
            name,
            linkage: _,
            constant: _,
            typed,
            init,
            align: _,
            line: _,
        } = self;
        drop(name);
        drop(typed);
        drop(init);
    }
}

/// What a module is made of. Metadata, comdats and the name of the source are read and not kept; a
/// type without a shape is opaque.
pub enum Item {
    Datalayout(Name),
    Triple(Name),
    Attributes {
        group: Name,
        noinline: bool,
        optnone: bool,
    },
    Type(Name, Option<Typed>),
    Variable(Variable),
    Declaration(FunctionHeader),
    Definition(FunctionHeader, Rows<Block>),
}

// Written out, so that it is one call wherever an item is dropped.
impl Drop for Item {
    fn drop(self) {
        match self {
            Item::Datalayout(text) => drop(text),
            Item::Triple(text) => drop(text),
            Item::Attributes {
                group,
                noinline: _,
                optnone: _,
            } => drop(group),
            Item::Type(name, typed) => {
                drop(name);
                drop(typed);
            }
            Item::Variable(variable) => drop(variable),
            Item::Declaration(head) => drop(head),
            Item::Definition(head, blocks) => {
                drop(head);
                drop(blocks);
            }
        }
    }
}
