//! Blocks merged into their only predecessors.
ghost use Rattle.std.specs.Prelude.{◌≡◌, ◌-◌, ◌^◌, ℕ, false, nat_eq, length, IfOk};
ghost use Rattle.std.specs.HashSet.{contains};
ghost use Rattle.ir_tree.specs.Formed.{Distinct, numbers};
ghost use Rattle.ir_tree.specs.Rules.{Sound};
ghost use Rattle.ir_flow.specs.OfFunction.{IsGraphOf};
ghost use Rattle.ir_meaning.specs.Near.{BetterThan};
ghost use Rattle.ir_meaning.specs.Program.{Program};
ghost use Rattle.ir_meaning.specs.Formed.{IsFormed};
ghost use Rattle.block_trim.specs.Merged.{IsMergeOf, behind_entry};
ghost use Rattle.block_trim.specs.Working.{has_one_edge, may_go};

use crate::candidates::candidates;
use crate::joining::Joining;
use crate::unjoined::all_stay;
use ir_flow::{Edges, preds};
use ir_tree::{Duplicate, Function};
use std::alloc::{AllocError, Global};
use std::collections::HashSet;

/// The function with its blocks joined, where these can go into another one.
fn merged(alloc: Global, f: &Function, candidates: HashSet<u32>) -> Result<Function, AllocError>
    requires { (n : ℕ) → contains nat_eq candidates n ≡ may_go (has_one_edge f.now.blocks) (behind_entry f.now.blocks) n }
    ensures { IfOk result (λ g. Distinct (numbers f.now) → IsMergeOf f.now g) }
{
    let old = f.blocks.as_slice();
    let mut joining = Joining::of(alloc, old, candidates)?;
    joining.grow_all(old)?;
    let symbol = f.symbol.duplicate(alloc)?;
    let params = f.params.duplicate(alloc)?;
    let blocks = joining.blocks(alloc, old)?;
    Ok(Function {
        symbol,
        linkage: f.linkage,
        result: f.result,
        params,
        noinline: f.noinline,
        optnone: f.optnone,
        blocks,
    })
}

/// Blocks merged into their only predecessors: as long as a block jumps to another one, which is not the entry, has no phis
/// and has no other predecessor edge, the first such block takes that one's instructions and end, and phi entries that named
/// it name the taker. Blocks that stay keep their order and numbers.
///
/// Where no two blocks have one number, as in every sound function, joins lead from the function to the result, each of the
/// first block in block order that can take another one, and none is left. Beside want of memory, a function of `2^32` blocks or
/// more is refused as too large for it.
pub fn merge(alloc: Global, f: &Function) -> Result<Function, AllocError>
    ensures merged { IfOk result (λ g. Distinct (numbers f.now) → IsMergeOf f.now g) }
    ensures better { IfOk result (λ g. Sound f.now → (p : Program) → IsFormed p → BetterThan p (2 ^ (length f.now.blocks - length g.blocks)) g f.now) }
    ensures sound { IfOk result (λ g. Sound f.now → Sound g) }
{
    let edges = preds(alloc, f)?;
    let candidates = candidates(alloc, f, &edges)?;
    let g = merged(alloc, f, candidates)?;
    Ok(g)
}

/// What [`merge`] makes of a function that is given up, and whether that may be another one: where no block takes another
/// one it is the function itself. Its caller knows the function's predecessor edges.
///
/// Only want of memory refuses a function.
pub fn into_merged(
    alloc: Global,
    f: Function,
    edges: &Edges,
) -> Result<(Function, bool), AllocError>
    requires graph { IsGraphOf f edges.now }
    ensures merged { IfOk result (λ made. Distinct (numbers f) → IsMergeOf f made.0) }
    ensures sound { IfOk result (λ made. Sound f → Sound made.0) }
    ensures same { IfOk result (λ made. made.1 ≡ false → made.0 ≡ f) }
{
    let candidates = candidates(alloc, &f, edges)?;
    let stay = all_stay(&candidates, f.blocks.as_slice());
    if stay {
        return Ok((f, false));
    }
    let g = merged(alloc, &f, candidates)?;
    Ok((g, true))
}
