//! Whether a function uses one of some locals, so that there is something to replace.
ghost use Rattle.std.specs.Prelude.{◌≡◌, ℕ, Bool, nat_eq};
ghost use Rattle.std.specs.HashSet.{contains};
ghost use Rattle.ir_meaning.specs.Facts.{is_local};
ghost use Rattle.fact_sources.specs.Membership.{beside, is_member};
ghost use Rattle.fact_sources.specs.Naming.{arguments_name, block_names, blocks_name, end_names, entries_name, instr_names, lines_name, phis_name};

use ir_tree::{Argument, Block, Incoming, Instr, Line, Operand, Phi, Terminator};
use std::collections::HashSet;

/// A set of locals that is asked for.
pub trait Locals {
    /// Whether a local is of the set.
    ghost members: { Self → ℕ → Bool };

    /// Whether a local is of the set.
    fn has(&self, local: u32) -> bool
        ensures { result ≡ members self.now local };
}

impl Locals for HashSet<u32> {
    ghost members = { λ s. contains nat_eq s };

    fn has(&self, local: u32) -> bool {
        self.contains(&local)
    }
}

/// The locals of a set that another lacks.
#[derive(Clone, Copy)]
pub struct Beside<'a> {
    pub set: &'a HashSet<u32>,
    pub but: &'a HashSet<u32>,
}

impl<'a> Locals for Beside<'a> {
    ghost members = { λ b. beside (contains nat_eq b.set.now) (contains nat_eq b.but.now) };

    fn has(&self, local: u32) -> bool {
        self.set.contains(&local) && !self.but.contains(&local)
    }
}

/// Whether an operand is this local.
pub fn is_local(local: u32, operand: &Operand) -> bool
    ensures { result ≡ is_local local operand.now }
{
    match operand {
        Operand::Local(own) => *own == local,
        _ => false,
    }
}

/// Whether an operand is a local of the set.
pub fn is_among<L: Locals>(among: &L, operand: &Operand) -> bool
    ensures { result ≡ is_member (L.members among.now) operand.now }
{
    match operand {
        Operand::Local(local) => among.has(*local),
        _ => false,
    }
}

fn arguments_name<L: Locals>(among: &L, arguments: &[Argument]) -> bool
    ensures { result ≡ arguments_name (L.members among.now) arguments.now }
{
    for argument in arguments {
        if is_among(among, &argument.operand) {
            return true;
        }
    }
    false
}

fn entries_name<L: Locals>(among: &L, incoming: &[Incoming]) -> bool
    ensures { result ≡ entries_name (L.members among.now) incoming.now }
{
    for entry in incoming {
        if is_among(among, &entry.value) {
            return true;
        }
    }
    false
}

/// Whether an operand of the instruction is a local of the set.
pub fn instr_names<L: Locals>(among: &L, instr: &Instr) -> bool
    ensures { result ≡ instr_names (L.members among.now) instr.now }
{
    match instr {
        Instr::Binary { left, right, .. } => is_among(among, left) || is_among(among, right),
        Instr::Icmp { left, right, .. } => is_among(among, left) || is_among(among, right),
        Instr::Cast { value, .. } => is_among(among, value),
        Instr::Select {
            condition,
            if_true,
            if_false,
        } => {
            is_among(among, condition)
                || is_among(among, &if_true.operand)
                || is_among(among, &if_false.operand)
        }
        Instr::Freeze { value, .. } => is_among(among, value),
        Instr::Alloca { .. } => false,
        Instr::Load { address, .. } => is_among(among, address),
        Instr::Store { value, address, .. } => is_among(among, value) || is_among(among, address),
        Instr::Address { base, indices, .. } => {
            is_among(among, base) || arguments_name(among, indices.as_slice())
        }
        Instr::Call {
            callee,
            arguments,
            ..
        } => is_among(among, callee) || arguments_name(among, arguments.as_slice()),
        Instr::Phi { incoming, .. } => entries_name(among, incoming.as_slice()),
    }
}

fn lines_name<L: Locals>(among: &L, lines: &[Line]) -> bool
    ensures { result ≡ lines_name (L.members among.now) lines.now }
{
    for line in lines {
        if instr_names(among, &line.instr) {
            return true;
        }
    }
    false
}

/// Whether an operand of these phis is a local of the set.
pub fn phis_name<L: Locals>(among: &L, phis: &[Phi]) -> bool
    ensures { result ≡ phis_name (L.members among.now) phis.now }
{
    for phi in phis {
        if entries_name(among, phi.incoming.as_slice()) {
            return true;
        }
    }
    false
}

/// Whether an operand of the terminator is a local of the set.
pub fn end_names<L: Locals>(among: &L, end: &Terminator) -> bool
    ensures { result ≡ end_names (L.members among.now) end.now }
{
    match end {
        Terminator::Return(Some(value)) => is_among(among, &value.operand),
        Terminator::Return(None) | Terminator::Jump(_) | Terminator::Unreachable => false,
        Terminator::Branch { condition, .. } => is_among(among, condition),
        Terminator::Switch { value, .. } => is_among(among, value),
    }
}

/// Whether an operand of a block is a local of the set.
pub fn block_names<L: Locals>(among: &L, block: &Block) -> bool
    ensures { result ≡ block_names (L.members among.now) block.now }
{
    phis_name(among, block.phis.as_slice())
        || lines_name(among, block.lines.as_slice())
        || end_names(among, &block.end)
}

/// Whether an operand of these blocks is a local of the set. The first such use ends it.
pub fn blocks_name<L: Locals>(among: &L, blocks: &[Block]) -> bool
    ensures { result ≡ blocks_name (L.members among.now) blocks.now }
{
    for block in blocks {
        if block_names(among, block) {
            return true;
        }
    }
    false
}
