//! Operators and flags of instructions under the names of the operations on words.
ghost use Rattle.std.specs.Prelude.{◌≡◌};
ghost use Rattle.ir_meaning.specs.Operators.{word_flags, word_op, word_predicate};

use ir_tree::{BinaryOp, Flags, Predicate};

/// The operation on words that a binary operation is.
pub fn operation(op: BinaryOp) -> lto_bits::BinaryOp
    ensures { result ≡ word_op op }
{
    match op {
        BinaryOp::Add => lto_bits::BinaryOp::Add,
        BinaryOp::Sub => lto_bits::BinaryOp::Sub,
        BinaryOp::Mul => lto_bits::BinaryOp::Mul,
        BinaryOp::Shl => lto_bits::BinaryOp::Shl,
        BinaryOp::Udiv => lto_bits::BinaryOp::Udiv,
        BinaryOp::Sdiv => lto_bits::BinaryOp::Sdiv,
        BinaryOp::Lshr => lto_bits::BinaryOp::Lshr,
        BinaryOp::Ashr => lto_bits::BinaryOp::Ashr,
        BinaryOp::Urem => lto_bits::BinaryOp::Urem,
        BinaryOp::Srem => lto_bits::BinaryOp::Srem,
        BinaryOp::And => lto_bits::BinaryOp::And,
        BinaryOp::Or => lto_bits::BinaryOp::Or,
        BinaryOp::Xor => lto_bits::BinaryOp::Xor,
    }
}

/// The same flags.
pub fn marks(flags: Flags) -> lto_bits::Flags
    ensures { result ≡ word_flags flags }
{
    lto_bits::Flags {
        nuw: flags.nuw,
        nsw: flags.nsw,
        exact: flags.exact,
    }
}

/// The comparison of words that a predicate is.
pub fn condition(predicate: Predicate) -> lto_bits::Predicate
    ensures { result ≡ word_predicate predicate }
{
    match predicate {
        Predicate::Eq => lto_bits::Predicate::Eq,
        Predicate::Ne => lto_bits::Predicate::Ne,
        Predicate::Ugt => lto_bits::Predicate::Ugt,
        Predicate::Uge => lto_bits::Predicate::Uge,
        Predicate::Ult => lto_bits::Predicate::Ult,
        Predicate::Ule => lto_bits::Predicate::Ule,
        Predicate::Sgt => lto_bits::Predicate::Sgt,
        Predicate::Sge => lto_bits::Predicate::Sge,
        Predicate::Slt => lto_bits::Predicate::Slt,
        Predicate::Sle => lto_bits::Predicate::Sle,
    }
}
