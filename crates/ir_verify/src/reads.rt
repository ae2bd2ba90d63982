//! What instructions and terminators read at their own points.
ghost use Rattle.std.specs.Prelude.{◌≡◌, ◌≤◌, ◌∷◌, [], length, slice_get, MatchOption, Some};
ghost use Rattle.ir_tree.specs.Items.{typed, reads, end_reads};

use ir_tree::{Argument, Instr, Operand, Reg, Terminator};

/// An operand with the type that it has to have.
type Read<'a> = (Reg, &'a Operand);

fn one<'a>(first: Read<'a>, number: usize) -> Option<Read<'a>>
    ensures { MatchOption result (1 ≤ number) (λ r. slice_get (typed first.entry.0 first.entry.1.now ∷ []) number ≡ Some (typed r.0 r.1.now)) }
{
    if number == 0 { Some(first) } else { None }
}

fn two<'a>(first: Read<'a>, second: Read<'a>, number: usize) -> Option<Read<'a>>
    ensures { MatchOption result (2 ≤ number) (λ r. slice_get (typed first.entry.0 first.entry.1.now ∷ typed second.entry.0 second.entry.1.now ∷ []) number ≡ Some (typed r.0 r.1.now)) }
{
    match number {
        0 => Some(first),
        1 => Some(second),
        _ => None,
    }
}

fn three<'a>(
    first: Read<'a>,
    second: &'a Argument,
    third: &'a Argument,
    number: usize,
) -> Option<Read<'a>>
    ensures { MatchOption result (3 ≤ number) (λ r. slice_get (typed first.entry.0 first.entry.1.now ∷ second.now ∷ third.now ∷ []) number ≡ Some (typed r.0 r.1.now)) }
{
    match number {
        0 => Some(first),
        1 => Some((second.reg, &second.operand)),
        2 => Some((third.reg, &third.operand)),
        _ => None,
    }
}

fn listed<'a>(arguments: &'a [Argument], number: usize) -> Option<Read<'a>>
    ensures { MatchOption result (length arguments.now ≤ number) (λ r. slice_get arguments.now number ≡ Some (typed r.0 r.1.now)) }
{
    if number < arguments.len() {
        let argument = &arguments[number];
        Some((argument.reg, &argument.operand))
    } else {
        None
    }
}

fn led<'a>(first: Read<'a>, rest: &'a [Argument], number: usize) -> Option<Read<'a>>
    ensures { MatchOption result (length (typed first.entry.0 first.entry.1.now ∷ rest.now) ≤ number) (λ r. slice_get (typed first.entry.0 first.entry.1.now ∷ rest.now) number ≡ Some (typed r.0 r.1.now)) }
{
    if number == 0 {
        Some(first)
    } else {
        listed(rest, number - 1)
    }
}

/// What an instruction reads under a number, counted from 0; a phi reads nothing at its own point.
pub fn read_at<'a>(instr: &'a Instr, number: usize) -> Option<(Reg, &'a Operand)>
    ensures { MatchOption result (length (reads instr.now) ≤ number) (λ r. slice_get (reads instr.now) number ≡ Some (typed r.0 r.1.now)) }
{
    match instr {
        Instr::Binary {
            width,
            left,
            right,
            ..
        } => two((Reg::Int(*width), left), (Reg::Int(*width), right), number),
        Instr::Icmp {
            reg,
            left,
            right,
            ..
        } => two((*reg, left), (*reg, right), number),
        Instr::Cast { from, value, .. } => one((*from, value), number),
        Instr::Select {
            condition,
            if_true,
            if_false,
        } => three((Reg::Int(1), condition), if_true, if_false, number),
        Instr::Freeze { reg, value } => one((*reg, value), number),
        Instr::Load { address, .. } => one((Reg::Ptr, address), number),
        Instr::Store {
            reg,
            value,
            address,
            ..
        } => two((*reg, value), (Reg::Ptr, address), number),
        Instr::Address { base, indices, .. } => led((Reg::Ptr, base), indices.as_slice(), number),
        Instr::Call {
            callee,
            arguments,
            ..
        } => led((Reg::Ptr, callee), arguments.as_slice(), number),
        Instr::Alloca { .. } | Instr::Phi { .. } => None,
    }
}

/// How many operands an instruction reads at its own point.
pub fn read_count(instr: &Instr) -> usize
    ensures { result ≡ length (reads instr.now) }
{
    match instr {
        Instr::Binary { .. } | Instr::Icmp { .. } | Instr::Store { .. } => 2,
        Instr::Cast { .. } | Instr::Freeze { .. } | Instr::Load { .. } => 1,
        Instr::Select { .. } => 3,
        Instr::Address { indices, .. } => 1 + indices.as_slice().len(),
        Instr::Call { arguments, .. } => 1 + arguments.as_slice().len(),
        Instr::Alloca { .. } | Instr::Phi { .. } => 0,
    }
}

/// What a terminator reads, if it reads anything.
pub fn end_read(end: &Terminator) -> Option<(Reg, &Operand)>
    ensures { MatchOption result (end_reads end.now ≡ []) (λ r. end_reads end.now ≡ typed r.0 r.1.now ∷ []) }
{
    match end {
        Terminator::Return(Some(argument)) => Some((argument.reg, &argument.operand)),
        Terminator::Branch { condition, .. } => Some((Reg::Int(1), condition)),
        Terminator::Switch { width, value, .. } => Some((Reg::Int(*width), value)),
        Terminator::Return(None) | Terminator::Jump(_) | Terminator::Unreachable => None,
    }
}
