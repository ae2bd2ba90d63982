//! What an instruction has to keep by itself: its casts, comparisons and indices.
ghost use Rattle.std.specs.Prelude.{◌≡◌, ◌↔◌, ◌∷◌, IsTrue, MatchOption, option_copied, slice_get};
ghost use Rattle.ir_tree.specs.Items.{typed};
ghost use Rattle.ir_tree.specs.Rules.{IsInteger, Follow, IndicesFollow, CastFits, ComparesRight, LineCasts, LineFollows, IsNoPhi};
ghost use Rattle.ir_tree.specs.declared.operand.Operand.TheVariants.{Number};
ghost use Rattle.ir_tree.specs.declared.operand.Reg.TheVariants.{Int};
ghost use Rattle.ir_verify.specs.Parts.{LeadsTo, LeadsNowhere};

use ir_tree::{Argument, CastOp, Instr, Operand, Predicate, Reg, Shape, ShapeNode};

pub fn is_integer(reg: Reg) -> bool
    ensures { IsTrue result ↔ IsInteger reg }
{
    matches!(reg, Reg::Int(_))
}

/// Whether a cast goes the right way between integers.
pub fn cast_fits(op: CastOp, from: Reg, to: Reg) -> bool
    ensures { IsTrue result ↔ CastFits op from to }
{
    match (op, from, to) {
        (CastOp::Zext | CastOp::Sext, Reg::Int(from), Reg::Int(to)) => from < to,
        (CastOp::Trunc, Reg::Int(from), Reg::Int(to)) => to < from,
        _ => false,
    }
}

/// Whether a comparison may be of this type.
pub fn compares_right(predicate: Predicate, reg: Reg) -> bool
    ensures { IsTrue result ↔ ComparesRight predicate reg }
{
    match predicate {
        Predicate::Sgt | Predicate::Sge | Predicate::Slt | Predicate::Sle => is_integer(reg),
        Predicate::Eq
        | Predicate::Ne
        | Predicate::Ugt
        | Predicate::Uge
        | Predicate::Ult
        | Predicate::Ule => true,
    }
}

/// Whether a cast, `freeze` or comparison is of types that it may have.
pub fn casts_right(instr: &Instr) -> bool
    ensures { IsTrue result ↔ LineCasts instr.now }
{
    match instr {
        Instr::Cast { op, from, to, .. } => cast_fits(*op, *from, *to),
        Instr::Freeze { reg, .. } => is_integer(*reg),
        Instr::Icmp { predicate, reg, .. } => compares_right(*predicate, *reg),
        _ => true,
    }
}

pub fn is_no_phi(instr: &Instr) -> bool
    ensures { IsTrue result ↔ IsNoPhi instr.now }
{
    !matches!(instr, Instr::Phi { .. })
}

/// The number of a struct's part, where the index is a constant `i32`.
fn constant(index: &Argument) -> Option<u64>
    ensures { MatchOption result ((k : _) → index.now ≡ typed (Int 32) (Number 32 k) → ⊥) (λ k. index.now ≡ typed (Int 32) (Number 32 k)) }
{
    match (index.reg, &index.operand) {
        (Reg::Int(32), Operand::Number { width: 32, bits }) => Some(*bits),
        _ => None,
    }
}

/// The part of a struct under a number.
fn shape_at(parts: &[Shape], number: u64) -> Option<&Shape>
    ensures { option_copied result ≡ slice_get parts.now number }
{
    if number < parts.len() as u64 {
        Some(&parts[number as usize])
    } else {
        None
    }
}

/// The part of a struct that an index leads to.
fn part_at<'a>(parts: &'a [Shape], index: &Argument) -> Option<&'a Shape>
    ensures { MatchOption result (LeadsNowhere parts.now index.now) (λ part. LeadsTo parts.now index.now part.now) }
{
    match constant(index) {
        Some(number) => shape_at(parts, number),
        None => None,
    }
}

/// Whether indices lead from a shape into its parts.
fn follow(shape: &Shape, indices: &[Argument]) -> bool
    ensures { IsTrue result ↔ Follow shape.now indices.now }
{
    let [index, rest @ ..] = indices else {
        return true;
    };
    match shape.node() {
        ShapeNode::Int(_) | ShapeNode::Ptr => false,
        ShapeNode::Array(_, of) => is_integer(index.reg) && follow(of, rest),
        ShapeNode::Struct(_, parts) => match part_at(parts, index) {
            Some(part) => follow(part, rest),
            None => false,
        },
    }
}

/// Whether the indices of an address follow its shape.
pub fn indices_follow(shape: &Shape, indices: &[Argument]) -> bool
    ensures { IsTrue result ↔ IndicesFollow shape.now indices.now }
{
    match indices {
        [] => true,
        [first, rest @ ..] => is_integer(first.reg) && follow(shape, rest),
    }
}

/// Whether an instruction's indices, where it computes an address, follow its shape.
pub fn line_follows(instr: &Instr) -> bool
    ensures { IsTrue result ↔ LineFollows instr.now }
{
    match instr {
        Instr::Address { shape, indices, .. } => indices_follow(shape, indices.as_slice()),
        _ => true,
    }
}
