//! The second rule: what is used is available. Nothing is kept as sets at points: where the block that defines a local stands in the
//! dominator tree says it all.
ghost use Rattle.std.specs.Prelude.{ℕ, ◌<◌, ◌≤◌, ◌^◌, ◌↔◌, length, IsTrue, All};
ghost use Rattle.ir_flow.specs.Dominating.{AreDominators, dominance};
ghost use Rattle.ir_tree.specs.Flow.{AvailableAt, locals};
ghost use Rattle.ir_tree.specs.Formed.{Distinct, Formed, IsLocal, OperandFormed, ArgumentFormed};
ghost use Rattle.ir_tree.specs.Items.{reads, end_reads};
ghost use Rattle.ir_tree.specs.Rules.{IsThere, IsThereAtEnd};
ghost use Rattle.ir_tree.specs.declared.function.Function.{Function};
ghost use Rattle.ir_verify.specs.Homes.{IsHome};
ghost use Rattle.ir_verify.specs.Known.{IsKnown};

use crate::definitions::Home;
use crate::known::Known;
use crate::reads::{end_read, read_at, read_count};
use ir_flow::{Dominators, available_by_dominance};
use ir_tree::{Function, Instr, Operand, Terminator};

/// Whether a local with this home is available in the block at a place, before its line of this number: in the home itself behind
/// its definition, elsewhere where the home dominates, and in a block that isn't reached.
fn home_there(dominators: &Dominators, home: Home, block: usize, line: usize) -> bool
    requires home { home.block < (dominance dominators.now).blocks }
    requires block { block < (dominance dominators.now).blocks }
    requires short { (dominance dominators.now).blocks ≤ 2 ^ 32 }
    ensures { (f : Function) (x : ℕ) → AreDominators f (dominance dominators.now) → Distinct (locals f) → IsHome f home x → IsTrue result ↔ AvailableAt f block line x }
{
    available_by_dominance();
    if home.block != block {
        return dominators.dominates(home.block as u32, block as u32);
    }
    if home.after <= line {
        return true;
    }
    !dominators.reaches(block as u32)
}

/// Whether a local is available in the block at a place, before its line of this number.
fn local_there(function: &Function, known: &Known, block: usize, line: usize, local: u32) -> bool
    requires known { IsKnown function.now known.now }
    requires formed { Formed function.now }
    requires within { block < length function.now.blocks }
    requires local { IsLocal function.now local }
    ensures { IsTrue result ↔ AvailableAt function.now block line local }
{
    let Some(definition) = known.locals.get(local) else {
        return false;
    };
    match definition.home {
        Some(home) => home_there(&known.dominators, home, block, line),
        None => true,
    }
}

/// Whether an operand is there before a line; one that is no local always is.
fn operand_there(
    function: &Function,
    known: &Known,
    block: usize,
    line: usize,
    operand: &Operand,
) -> bool
    requires known { IsKnown function.now known.now }
    requires formed { Formed function.now }
    requires within { block < length function.now.blocks }
    requires operand { OperandFormed function.now operand.now }
    ensures { IsTrue result ↔ IsThere function.now block line operand.now }
{
    match operand {
        Operand::Local(local) => local_there(function, known, block, line, *local),
        _ => true,
    }
}

/// Whether an operand is there at the end of a block.
pub fn operand_at_end(function: &Function, known: &Known, block: usize, operand: &Operand) -> bool
    requires known { IsKnown function.now known.now }
    requires formed { Formed function.now }
    requires within { block < length function.now.blocks }
    requires operand { OperandFormed function.now operand.now }
    ensures { IsTrue result ↔ IsThereAtEnd function.now block operand.now }
{
    let line = function.blocks.as_slice()[block].lines.as_slice().len();
    operand_there(function, known, block, line, operand)
}

/// Whether all that an instruction reads is there before its line.
pub fn reads_there(
    function: &Function,
    known: &Known,
    block: usize,
    line: usize,
    instr: &Instr,
) -> bool
    requires known { IsKnown function.now known.now }
    requires formed { Formed function.now }
    requires within { block < length function.now.blocks }
    requires reads { All (ArgumentFormed function.now) (reads instr.now) }
    ensures { IsTrue result ↔ All (λ a. IsThere function.now block line a.operand) (reads instr.now) }
{
    for number in 0..read_count(instr) {
        let Some((_reg, operand)) = read_at(instr, number) else {
            return true;
        };
        if !operand_there(function, known, block, line, operand) {
            return false;
        }
    }
    true
}

/// Whether what a terminator reads is there at the end of its block.
pub fn end_there(function: &Function, known: &Known, block: usize, end: &Terminator) -> bool
    requires known { IsKnown function.now known.now }
    requires formed { Formed function.now }
    requires within { block < length function.now.blocks }
    requires reads { All (ArgumentFormed function.now) (end_reads end.now) }
    ensures { IsTrue result ↔ All (λ a. IsThereAtEnd function.now block a.operand) (end_reads end.now) }
{
    match end_read(end) {
        Some((_, operand)) => operand_at_end(function, known, block, operand),
        None => true,
    }
}
