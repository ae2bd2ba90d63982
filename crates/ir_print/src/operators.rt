//! The words of operations.
ghost use Rattle.std.specs.Prelude.{◌≡◌, ◌<◌, length};
ghost use Rattle.ir_print.specs.Instructions as instructions;

use ir_tree::{BinaryOp, CastOp, Predicate};

pub(crate) fn opcode(op: BinaryOp) -> &'static [u8]
    ensures is { result.now ≡ instructions.opcode op }
    ensures some { 0 < length result.now }
{
    match op {
        BinaryOp::Add => b"add",
        BinaryOp::Sub => b"sub",
        BinaryOp::Mul => b"mul",
        BinaryOp::Shl => b"shl",
        BinaryOp::Udiv => b"udiv",
        BinaryOp::Sdiv => b"sdiv",
        BinaryOp::Lshr => b"lshr",
        BinaryOp::Ashr => b"ashr",
        BinaryOp::Urem => b"urem",
        BinaryOp::Srem => b"srem",
        BinaryOp::And => b"and",
        BinaryOp::Or => b"or",
        BinaryOp::Xor => b"xor",
    }
}

pub(crate) fn condition(predicate: Predicate) -> &'static [u8]
    ensures is { result.now ≡ instructions.condition predicate }
    ensures some { 0 < length result.now }
{
    match predicate {
        Predicate::Eq => b"eq",
        Predicate::Ne => b"ne",
        Predicate::Ugt => b"ugt",
        Predicate::Uge => b"uge",
        Predicate::Ult => b"ult",
        Predicate::Ule => b"ule",
        Predicate::Sgt => b"sgt",
        Predicate::Sge => b"sge",
        Predicate::Slt => b"slt",
        Predicate::Sle => b"sle",
    }
}

pub(crate) fn conversion(op: CastOp) -> &'static [u8]
    ensures is { result.now ≡ instructions.conversion op }
    ensures some { 0 < length result.now }
{
    match op {
        CastOp::Zext => b"zext",
        CastOp::Sext => b"sext",
        CastOp::Trunc => b"trunc",
    }
}
