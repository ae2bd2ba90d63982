//! Stack slots promoted to registers.
ghost use Rattle.std.specs.Prelude.{◌≡◌, ℕ, ◌+◌, ◌<◌, ◌++◌, Bool, List, length, Some, IfOk};
ghost use Rattle.ir_tree.specs.Flow.{Among};
ghost use Rattle.ir_tree.specs.Rules.{Sound};
ghost use Rattle.ir_flow.specs.Graph.{row};
ghost use Rattle.ir_flow.specs.OfFunction.{IsGraphOf, IsReach};
ghost use Rattle.ir_meaning.specs.Near.{BetterThan};
ghost use Rattle.ir_meaning.specs.Program.{Program};
ghost use Rattle.ir_meaning.specs.Formed.{IsFormed};
ghost use Rattle.slot_promote.specs.Laws.{longest};
ghost use Rattle.slot_promote.specs.Promoted.{block_with, blocks_with, end_with, ends_with, first_phi, promoted_function};
ghost use Rattle.promotable_slots.specs.Slots.{promoted_slots};
ghost use Rattle.slot_promote.specs.Tables.{end_view, ends_in, first_in, place_in};
ghost use Rattle.slot_promote.specs.Values.{at_start, placed, without_slots as lines_without};

use crate::numbers::{first_phis, next_number};
use crate::phis::{BlockEnd, new_phis};
use crate::slots::Slots;
use crate::values::{Values, without_slots};
use ir_flow::{Edges, preds};
use ir_tree::{Block, Duplicate, Function, Line, Phi, Rows};
use std::alloc::{AllocError, Global};

/// How the block ends whose first new phi has this number.
fn block_end(
    alloc: Global,
    slots: &Slots,
    first: Option<usize>,
    block: &Block,
) -> Result<BlockEnd, AllocError>
    ensures { IfOk result (λ e. end_view (place_in slots.now) e ≡ end_with (place_in slots.now) first (Some block.now)) }
{
    let mut values = Values::new(alloc, first);
    values.pass_all(alloc, slots, block.lines.as_slice())?;
    Ok(BlockEnd {
        number: block.number,
        values,
    })
}

/// How each block ends.
fn block_ends(
    alloc: Global,
    slots: &Slots,
    firsts: &[Option<usize>],
    blocks: &[Block],
) -> Result<Vec<BlockEnd>, AllocError>
    requires { length firsts.now ≡ length blocks.now }
    ensures length { IfOk result (λ ends. length ends.items ≡ length blocks.now) }
    ensures ends { IfOk result (λ ends. (p : ℕ) → ends_in (place_in slots.now) ends.items p ≡ ends_with (place_in slots.now) (first_in firsts.now) blocks.now p) }
{
    let mut ends = Vec::with_capacity(alloc, blocks.len())?;
    for place in 0..blocks.len() {
        ends.push(block_end(alloc, slots, firsts[place], &blocks[place])?)?;
    }
    Ok(ends)
}

/// The phis, and behind them copies of the others.
fn joined(alloc: Global, phis: Rows<Phi>, others: &[Phi]) -> Result<Rows<Phi>, AllocError>
    ensures { IfOk result (λ rows. rows ≡ phis ++ others.now) }
{
    let mut rows = phis;
    for phi in others {
        rows.push(phi.duplicate(alloc)?)?;
    }
    Ok(rows)
}

/// The lines of a block without slots.
fn lines(
    alloc: Global,
    slots: &Slots,
    first: Option<usize>,
    block: &Block,
) -> Result<Rows<Line>, AllocError>
    ensures { IfOk result (λ rows. rows ≡ lines_without (place_in slots.now) (at_start (place_in slots.now) first) block.now.lines) }
{
    let start = Values::new(alloc, first);
    let lines = without_slots(alloc, slots, start, block.lines.as_slice())?;
    Ok(lines)
}

/// The block with other phis and lines.
fn with_parts(
    alloc: Global,
    block: &Block,
    phis: Rows<Phi>,
    lines: Rows<Line>,
) -> Result<Block, AllocError>
    ensures { IfOk result (λ b. b ≡ record block.now { phis = phis; lines = lines }) }
{
    let end = block.end.duplicate(alloc)?;
    Ok(Block {
        number: block.number,
        phis,
        lines,
        end,
    })
}

/// The block with these new phis before its own, and without slots among its lines.
fn block(
    alloc: Global,
    slots: &Slots,
    first: Option<usize>,
    new: Rows<Phi>,
    block: &Block,
) -> Result<Block, AllocError>
    ensures { IfOk result (λ b. b ≡ record block.now { phis = new ++ block.now.phis; lines = lines_without (place_in slots.now) (at_start (place_in slots.now) first) block.now.lines }) }
{
    let phis = joined(alloc, new, block.phis.as_slice())?;
    let lines = lines(alloc, slots, first, block)?;
    let made = with_parts(alloc, block, phis, lines)?;
    Ok(made)
}

/// The block with new phis, to which blocks that end so lead from these places.
fn block_from(
    alloc: Global,
    slots: &Slots,
    ends: &[BlockEnd],
    sources: &[u32],
    first: Option<usize>,
    old: &Block,
) -> Result<Block, AllocError>
    requires { (p : ℕ) → Among p sources.now → p < length ends.now }
    ensures { IfOk result (λ b. b ≡ block_with (place_in slots.now) slots.now.list.items (ends_in (place_in slots.now) ends.now) sources.now first old.now) }
{
    let new = new_phis(alloc, slots, ends, sources, first)?;
    let made = block(alloc, slots, first, new, old)?;
    Ok(made)
}

/// The blocks with new phis, where each block ends so, and the first new phi of each has this number.
fn blocks(
    alloc: Global,
    slots: &Slots,
    edges: &Edges,
    firsts: &[Option<usize>],
    ends: &[BlockEnd],
    blocks: &[Block],
) -> Result<Rows<Block>, AllocError>
    requires firsts { length firsts.now ≡ length blocks.now }
    requires ends { length ends.now ≡ length blocks.now }
    requires edges { length edges.now ≡ length blocks.now }
    requires inside { (b p : ℕ) → Among p (row edges.now b) → p < length edges.now }
    ensures { IfOk result (λ rows. rows ≡ blocks_with (place_in slots.now) slots.now.list.items (ends_in (place_in slots.now) ends.now) (row edges.now) (first_in firsts.now) 0 blocks.now) }
{
    let mut rows = Rows::new(alloc);
    for place in 0..blocks.len() {
        let made = block_from(
            alloc,
            slots,
            ends,
            edges.of(place),
            firsts[place],
            &blocks[place],
        )?;
        rows.push(made)?;
    }
    Ok(rows)
}

/// The blocks of a function without its slots, where this number is the first that is free.
fn all_blocks(
    alloc: Global,
    slots: &Slots,
    edges: &Edges,
    next: usize,
    old: &[Block],
) -> Result<Rows<Block>, AllocError>
    requires edges { length edges.now ≡ length old.now }
    requires inside { (b p : ℕ) → Among p (row edges.now b) → p < length edges.now }
    ensures { let first = first_phi (row edges.now) (length slots.now.list.items) next in IfOk result (λ rows. rows ≡ blocks_with (place_in slots.now) slots.now.list.items (ends_with (place_in slots.now) first old.now) (row edges.now) first 0 old.now) }
{
    let firsts = first_phis(alloc, edges, slots.list.len(), next)?;
    let ends = block_ends(alloc, slots, firsts.as_slice(), old)?;
    let rows = blocks(alloc, slots, edges, firsts.as_slice(), ends.as_slice(), old)?;
    Ok(rows)
}

/// The blocks of the function with these, which are its slots, as values.
fn promoted_blocks(
    alloc: Global,
    slots: &Slots,
    edges: &Edges,
    f: &Function,
) -> Result<Rows<Block>, AllocError>
    requires graph { IsGraphOf f.now edges.now }
    requires list { slots.now.list.items ≡ promoted_slots f.now }
    requires places { (x : ℕ) → place_in slots.now x ≡ placed 0 (promoted_slots f.now) x }
    ensures { IfOk result (λ blocks. blocks ≡ (promoted_function f.now).blocks) }
{
    let next = next_number(f);
    let blocks = all_blocks(alloc, slots, edges, next, f.blocks.as_slice())?;
    Ok(blocks)
}

/// The function with other blocks.
fn with_blocks(alloc: Global, f: &Function, blocks: Rows<Block>) -> Result<Function, AllocError>
    ensures { IfOk result (λ g. g ≡ record f.now { blocks = blocks }) }
{
    let symbol = f.symbol.duplicate(alloc)?;
    let params = f.params.duplicate(alloc)?;
    Ok(Function {
        symbol,
        linkage: f.linkage,
        result: f.result,
        params,
        noinline: f.noinline,
        optnone: f.optnone,
        blocks,
    })
}

/// The function with these, which are its slots, as values.
fn promoted(
    alloc: Global,
    slots: &Slots,
    edges: &Edges,
    f: &Function,
) -> Result<Function, AllocError>
    requires graph { IsGraphOf f.now edges.now }
    requires list { slots.now.list.items ≡ promoted_slots f.now }
    requires places { (x : ℕ) → place_in slots.now x ≡ placed 0 (promoted_slots f.now) x }
    ensures { IfOk result (λ g. g ≡ promoted_function f.now) }
{
    let blocks = promoted_blocks(alloc, slots, edges, f)?;
    let g = with_blocks(alloc, f, blocks)?;
    Ok(g)
}

/// Promotion of stack slots to registers: the function with each promotable slot as values, all at once; none where slots
/// times blocks are more than 4,000,000.
///
/// Beside want of memory, a function of `2^32` blocks or more is refused as too large for it, and one where the number
/// of a new phi would pass 32 bits.
pub fn promote(alloc: Global, f: &Function) -> Result<Function, AllocError>
    ensures promoted { IfOk result (λ g. g ≡ promoted_function f.now) }
    ensures better { IfOk result (λ g. Sound f.now → (p : Program) → IsFormed p → BetterThan p (longest f.now.blocks + 1) g f.now) }
    ensures sound { IfOk result (λ g. Sound f.now → Sound g) }
{
    let edges = preds(alloc, f)?;
    let slots = Slots::of(alloc, f)?;
    let g = promoted(alloc, &slots, &edges, f)?;
    Ok(g)
}

/// What [`promote`] makes of a function that is given up: the function itself where it has no slot to promote. Its caller
/// knows its predecessor edges, which are those of what is made, and so the same blocks are reached in both.
///
/// Beside want of memory, a function is refused where the number of a new phi would pass 32 bits.
pub fn into_promoted(alloc: Global, f: Function, edges: &Edges) -> Result<Function, AllocError>
    requires graph { IsGraphOf f edges.now }
    ensures promoted { IfOk result (λ g. g ≡ promoted_function f) }
    ensures sound { IfOk result (λ g. Sound f → Sound g) }
    ensures graph { IfOk result (λ g. IsGraphOf g edges.now) }
    ensures reach { IfOk result (λ g. (reached : List Bool) → IsReach f reached → IsReach g reached) }
{
    let slots = Slots::of(alloc, &f)?;
    let count = slots.list.len();
    if count == 0 {
        return Ok(f);
    }
    let g = promoted(alloc, &slots, edges, &f)?;
    Ok(g)
}
