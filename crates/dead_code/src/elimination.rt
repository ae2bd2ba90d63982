//! Dead code elimination.
ghost use Rattle.std.specs.Prelude.{◌≡◌, ◌+◌, false, nat_eq, IfOk};
ghost use Rattle.std.specs.HashSet.{contains};
ghost use Rattle.ir_tree.specs.Rules.{Sound};
ghost use Rattle.ir_meaning.specs.Near.{BetterThan};
ghost use Rattle.ir_meaning.specs.Program.{Program};
ghost use Rattle.ir_meaning.specs.Formed.{IsFormed};
ghost use Rattle.dead_code.specs.Laws.{longest};
ghost use Rattle.dead_code.specs.Least.{IsLeastClosed, IsNeededOf};

use crate::readers::Readers;
use crate::staying::blocks_stay;
use crate::sweep::swept;
use crate::uses::uses_of;
use crate::worklist::kept;
use ir_tree::Function;
use std::alloc::{AllocError, Global};
use std::collections::HashSet;

/// The locals that are needed.
fn kept_in(alloc: Global, f: &Function) -> Result<HashSet<u32>, AllocError>
    ensures { IfOk result (λ kept. IsLeastClosed (contains nat_eq kept) f.now) }
{
    let uses = uses_of(alloc, f)?;
    let readers = Readers::of(alloc, &uses)?;
    let kept = kept(alloc, readers)?;
    Ok(kept)
}

/// Dead code elimination: the function with its terminators, its stores, its calls and what gives a value to a local
/// that these or other needed instructions read. All other phis and instructions go.
pub fn needed(alloc: Global, f: &Function) -> Result<Function, AllocError>
    ensures needed { IfOk result (λ g. IsNeededOf f.now g) }
    ensures better { IfOk result (λ g. (p : Program) → IsFormed p → BetterThan p (longest f.now.blocks + 1) g f.now) }
    ensures sound { IfOk result (λ g. Sound f.now → Sound g) }
{
    let kept = kept_in(alloc, f)?;
    let g = swept(alloc, &kept, f)?;
    Ok(g)
}

/// What is needed of a function that is given up, and whether that may be another one: where all of it is needed it is the
/// function itself.
pub fn into_needed(alloc: Global, f: Function) -> Result<(Function, bool), AllocError>
    ensures needed { IfOk result (λ made. IsNeededOf f made.0) }
    ensures sound { IfOk result (λ made. Sound f → Sound made.0) }
    ensures same { IfOk result (λ made. made.1 ≡ false → made.0 ≡ f) }
{
    let kept = kept_in(alloc, &f)?;
    let all = blocks_stay(&kept, f.blocks.as_slice());
    if all {
        return Ok((f, false));
    }
    let g = swept(alloc, &kept, &f)?;
    Ok((g, true))
}
