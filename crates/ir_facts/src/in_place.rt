//! The blocks of a function in rounds: each use of a local that has a candidate replaced in its place.
ghost use Rattle.std.specs.Prelude.{◌≡◌, false, map, IfOk, OnOk};
ghost use Rattle.ir_tree.specs.Edited.{block_edited};
ghost use Rattle.ir_edit.specs.Substituted.{operand_replaced, replacement};
ghost use Rattle.ir_facts.specs.Askable.{BlocksHaveWidths};
ghost use Rattle.ir_facts.specs.Candidates.{blocks_candidates};
ghost use Rattle.ir_facts.specs.Blocks.{with_blocks};

use crate::sources::push_blocks;
use fact_sources::{Substitution, replace_all};
use ir_tree::{Block, Function, Rows};
use std::alloc::{AllocError, Global};

/// The function with these blocks, which are moved in.
pub(crate) fn with_blocks(
    alloc: Global,
    f: &Function,
    blocks: Vec<Block>,
) -> Result<Function, AllocError>
    ensures { IfOk result (λ g. g ≡ with_blocks f.now blocks.items) }
{
    fact_sources::with_blocks(alloc, f, Rows::of(blocks))
}

/// Each use of a local replaced that has a candidate: whether there is one.
pub(crate) fn forward(alloc: Global, blocks: &mut Vec<Block>) -> Result<bool, AllocError>
    requires sized { BlocksHaveWidths blocks.old.items }
    ensures made { OnOk result (blocks.new.items ≡ map (block_edited (λ x. x) (operand_replaced (replacement (blocks_candidates blocks.old.items)))) blocks.old.items) }
    ensures kept { IfOk result (λ changed. changed ≡ false → blocks.new.items ≡ blocks.old.items) }
{
    let mut found = Vec::new(alloc);
    push_blocks(alloc, &mut found, blocks.as_slice())?;
    let substitution = Substitution::of(alloc, found.as_slice())?;
    let used = substitution.is_used(blocks.as_slice());
    if !used {
        return Ok(false);
    }
    replace_all(alloc, blocks.as_mut_slice(), &substitution)?;
    Ok(true)
}
