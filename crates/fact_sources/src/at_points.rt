//! One walk over a function that replaces each use of a local where a fact of it holds.
ghost use Rattle.std.specs.Prelude.{◌≡◌, ◌+◌, ℕ, IfOk};
ghost use Rattle.std.specs.BTreeMap as tree;
ghost use Rattle.std.specs.Ordering.{nat_cmp};
ghost use Rattle.lto_sets.specs.Sets.{contains};
ghost use Rattle.fact_sources.specs.AtPoints.{block_at, blocks_at, edges_at, function_at, last_point, lines_at, phis_at, standing, standing_behind};

use crate::fact::Fact;
use crate::naming::is_local;
use crate::rebuilt::with_blocks;
use ir_edit::{Edit, end_edited, instr_edited};
use ir_tree::{Block, Duplicate, Function, Incoming, Line, Operand, Phi, Rows};
use std::alloc::{AllocError, Global};
use std::collections::BTreeMap;

// ---- points

/// The point behind so many lines. Beside want of memory, a point past 32 bits is refused as one too many.
fn point_behind(first: u32, count: usize) -> Result<u32, AllocError>
    ensures { IfOk result (λ point. point ≡ first + count) }
{
    if count > u32::MAX as usize {
        return Err(AllocError);
    }
    match first.checked_add(count as u32) {
        Some(point) => Ok(point),
        None => Err(AllocError),
    }
}

/// The last point of each block, by the block's number.
fn last_points(alloc: Global, blocks: &[Block]) -> Result<BTreeMap<u32, u32>, AllocError>
    ensures { IfOk result (λ last. (n : ℕ) → tree.get nat_cmp last n ≡ last_point 0 blocks.now n) }
{
    let mut last = BTreeMap::new(alloc);
    let mut point: u32 = 0;
    for block in blocks {
        let end = point_behind(point, block.lines.len())?;
        last.insert(block.number, end)?;
        let next = point_behind(end, 1)?;
        point = next;
    }
    Ok(last)
}

// ---- operands

fn holds(fact: &Fact, point: u32) -> bool
    ensures { result ≡ contains fact.now.at point }
{
    if point < fact.at.size() {
        fact.at.has(point)
    } else {
        false
    }
}

/// What stands for an operand at a point.
fn standing<'a>(facts: &'a [Fact], point: u32, operand: &'a Operand) -> &'a Operand
    ensures { result.now ≡ standing facts.now point operand.now }
{
    for fact in facts {
        if is_local(fact.local, operand) && holds(fact, point) {
            return &fact.value;
        }
    }
    operand
}

fn operand_at(
    alloc: Global,
    facts: &[Fact],
    point: u32,
    operand: &Operand,
) -> Result<Operand, AllocError>
    ensures { IfOk result (λ o. o ≡ standing facts.now point operand.now) }
{
    standing(facts, point, operand).duplicate(alloc)
}

/// Each operand changed to what stands for it at a point.
#[derive(Clone, Copy)]
struct At<'a> {
    facts: &'a [Fact],
    point: u32,
}

impl<'a> Edit for At<'a> {
    ghost use Rattle.fact_sources.specs.AtPoints.{standing};

    ghost number_of = { λ a x. x };

    ghost operand_of = { λ a. standing a.facts.now a.point };

    fn number(&self, old: u32) -> Result<u32, AllocError> {
        Ok(old)
    }

    fn operand(&self, alloc: Global, old: &Operand) -> Result<Operand, AllocError> {
        operand_at(alloc, self.facts, self.point, old)
    }
}

// ---- instructions

fn lines_at(
    alloc: Global,
    facts: &[Fact],
    first: u32,
    lines: &[Line],
) -> Result<Rows<Line>, AllocError>
    ensures { IfOk result (λ rows. rows ≡ lines_at facts.now first lines.now) }
{
    let mut rows = Rows::new(alloc);
    let mut point = first;
    for line in lines {
        let instr = instr_edited(alloc, &At { facts, point }, &line.instr)?;
        rows.push(Line {
            local: line.local,
            instr,
        })?;
        let next = point_behind(point, 1)?;
        point = next;
    }
    Ok(rows)
}

// ---- phis

fn entry_at(
    alloc: Global,
    facts: &[Fact],
    last: &BTreeMap<u32, u32>,
    entry: &Incoming,
) -> Result<Operand, AllocError>
    ensures { IfOk result (λ o. o ≡ standing_behind facts.now (tree.get nat_cmp last.now entry.now.from) entry.now.value) }
{
    match last.get(&entry.from) {
        Some(point) => operand_at(alloc, facts, *point, &entry.value),
        None => entry.value.duplicate(alloc),
    }
}

fn edges_at(
    alloc: Global,
    facts: &[Fact],
    last: &BTreeMap<u32, u32>,
    incoming: &[Incoming],
) -> Result<Rows<Incoming>, AllocError>
    ensures { IfOk result (λ rows. rows ≡ edges_at facts.now (tree.get nat_cmp last.now) incoming.now) }
{
    let mut rows = Rows::new(alloc);
    for edge in incoming {
        let value = entry_at(alloc, facts, last, edge)?;
        rows.push(Incoming {
            from: edge.from,
            value,
        })?;
    }
    Ok(rows)
}

fn phis_at(
    alloc: Global,
    facts: &[Fact],
    last: &BTreeMap<u32, u32>,
    phis: &[Phi],
) -> Result<Rows<Phi>, AllocError>
    ensures { IfOk result (λ rows. rows ≡ phis_at facts.now (tree.get nat_cmp last.now) phis.now) }
{
    let mut rows = Rows::new(alloc);
    for phi in phis {
        let incoming = edges_at(alloc, facts, last, phi.incoming.as_slice())?;
        rows.push(Phi {
            local: phi.local,
            reg: phi.reg,
            incoming,
        })?;
    }
    Ok(rows)
}

// ---- blocks

fn block_at(
    alloc: Global,
    facts: &[Fact],
    last: &BTreeMap<u32, u32>,
    first: u32,
    block: &Block,
) -> Result<Block, AllocError>
    ensures { IfOk result (λ b. b ≡ block_at facts.now (tree.get nat_cmp last.now) first block.now) }
{
    let phis = phis_at(alloc, facts, last, block.phis.as_slice())?;
    let lines = lines_at(alloc, facts, first, block.lines.as_slice())?;
    let point = point_behind(first, block.lines.len())?;
    let end = end_edited(alloc, &At { facts, point }, &block.end)?;
    Ok(Block {
        number: block.number,
        phis,
        lines,
        end,
    })
}

fn blocks_at(
    alloc: Global,
    facts: &[Fact],
    last: &BTreeMap<u32, u32>,
    blocks: &[Block],
) -> Result<Rows<Block>, AllocError>
    ensures { IfOk result (λ rows. rows ≡ blocks_at facts.now (tree.get nat_cmp last.now) 0 blocks.now) }
{
    let mut rows = Rows::new(alloc);
    let mut point: u32 = 0;
    for block in blocks {
        let made = block_at(alloc, facts, last, point, block)?;
        rows.push(made)?;
        let end = point_behind(point, block.lines.len())?;
        let next = point_behind(end, 1)?;
        point = next;
    }
    Ok(rows)
}

/// The function with each use of a local replaced by the value of its first fact that holds at the use; a phi reads what it
/// takes at the last point of the block from which it comes. Definitions stay.
///
/// Beside want of memory, a function of `2^32` points or more is refused as too large.
pub fn function_at(alloc: Global, facts: &[Fact], f: &Function) -> Result<Function, AllocError>
    ensures { IfOk result (λ g. g ≡ function_at facts.now f.now) }
{
    let last = last_points(alloc, f.blocks.as_slice())?;
    let blocks = blocks_at(alloc, facts, &last, f.blocks.as_slice())?;
    let g = with_blocks(alloc, f, blocks)?;
    Ok(g)
}
