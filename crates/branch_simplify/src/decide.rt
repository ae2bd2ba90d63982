//! The one block to which a terminator leads, if it is known.
ghost use Rattle.std.specs.Prelude.{◌≡◌, IfOk};
ghost use Rattle.ir_meaning.specs.Act.{case_target, side};
ghost use Rattle.branch_simplify.specs.Decided.{constant, decided, straight};

use ir_tree::{Case, Duplicate, Operand, Terminator};
use std::alloc::{AllocError, Global};

/// The bits of an integer constant.
fn constant(operand: &Operand) -> Option<u64>
    ensures { result ≡ constant operand.now }
{
    match operand {
        Operand::Number { bits, .. } => Some(*bits),
        _ => None,
    }
}

/// The side of a `br` that is taken on these bits.
fn side(if_true: u32, if_false: u32, bits: u64) -> u32
    ensures { result ≡ side if_true if_false bits }
{
    match bits {
        0 => if_false,
        _ => if_true,
    }
}

/// The target of the first case that has these bits, or the default.
fn case_target(cases: &[Case], default: u32, bits: u64) -> u32
    ensures { result ≡ case_target cases.now default bits }
{
    for case in cases {
        if case.bits == bits {
            return case.target;
        }
    }
    default
}

/// The block to which a `br` or a `switch` leads where its operand is a constant, its targets are one block, or
/// it has no cases.
pub(crate) fn decided(end: &Terminator) -> Option<u32>
    ensures { result ≡ decided end.now }
{
    match end {
        Terminator::Branch {
            condition,
            if_true,
            if_false,
        } => match constant(condition) {
            Some(bits) => Some(side(*if_true, *if_false, bits)),
            None if *if_true == *if_false => Some(*if_true),
            None => None,
        },
        Terminator::Switch {
            value,
            default,
            cases,
            ..
        } => match constant(value) {
            Some(bits) => Some(case_target(cases.as_slice(), *default, bits)),
            None if cases.len() == 0 => Some(*default),
            None => None,
        },
        Terminator::Return(_) | Terminator::Jump(_) | Terminator::Unreachable => None,
    }
}

/// A jump where the terminator is decided, and else a copy.
pub(crate) fn straight(alloc: Global, end: &Terminator) -> Result<Terminator, AllocError>
    ensures { IfOk result (λ t. t ≡ straight end.now) }
{
    match decided(end) {
        Some(target) => Ok(Terminator::Jump(target)),
        None => end.duplicate(alloc),
    }
}
