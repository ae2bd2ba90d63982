//! The callee's blocks under numbers of the caller's, with arguments for parameters.
ghost use Rattle.std.specs.Prelude.{◌≡◌, List, [], ◌∷◌, ◌++◌, map, IfOk, OnOk};
ghost use Rattle.ir_tree.specs.declared.block.Block.{Block};
ghost use Rattle.ir_tree.specs.Rules.{Sound};
ghost use Rattle.ir_tree.specs.Edited.{shifted};
ghost use Rattle.ir_edit.specs.Numbered.{in_text_order};
ghost use Rattle.ir_edit.specs.Substituted.{substituted};
ghost use Rattle.inline_site.specs.Copies.{behind_call, bound, copied};
ghost use Rattle.inline_site.specs.Copying.{empty, opened, shifted_by};

use crate::free::first_free;
use ir_edit::{renumber, shift_numbers, substitute};
use ir_tree::{Argument, Block, Duplicate, Function, Operand, Param, Rows, Terminator};
use std::alloc::{AllocError, Global};

/// Adds an empty block of this number.
fn push_empty(alloc: Global, blocks: &mut Rows<Block>, number: u32) -> Result<(), AllocError>
    ensures { OnOk result (blocks.new ≡ blocks.old ++ empty number ∷ []) }
{
    blocks.push(Block {
        number,
        phis: Rows::new(alloc),
        lines: Rows::new(alloc),
        end: Terminator::Unreachable,
    })?;
    Ok(())
}

/// The callee without its parameters, and with an empty block of this number at its end.
fn opened(alloc: Global, callee: &Function, last: u32) -> Result<Function, AllocError>
    ensures { IfOk result (λ g. g ≡ opened last callee.now) }
{
    let symbol = callee.symbol.duplicate(alloc)?;
    let mut blocks = callee.blocks.duplicate(alloc)?;
    push_empty(alloc, &mut blocks, last)?;
    Ok(Function {
        symbol,
        linkage: callee.linkage,
        result: callee.result,
        params: Rows::new(alloc),
        noinline: callee.noinline,
        optnone: callee.optnone,
        blocks,
    })
}

/// The function numbered in the order of its text and then from this number on.
fn numbered_from(alloc: Global, f: &Function, free: u32) -> Result<Function, AllocError>
    ensures { IfOk result (λ g. g ≡ shifted free (in_text_order f.now)) }
{
    let numbered = renumber(alloc, f)?;
    shift_numbers(alloc, &numbered, free)
}

/// The callee with the empty block at its end, numbered in the order of its text and then from this number on.
fn moved(alloc: Global, callee: &Function, last: u32, free: u32) -> Result<Function, AllocError>
    ensures { IfOk result (λ g. g ≡ shifted free (in_text_order (opened last callee.now))) }
{
    let callee_opened = opened(alloc, callee, last)?;
    numbered_from(alloc, &callee_opened, free)
}

/// Each parameter's number with this added to it, and the argument.
///
/// Beside want of memory, a sum that passes 32 bits is refused.
fn replacements(
    alloc: Global,
    params: &[Param],
    arguments: &[Argument],
    by: u32,
) -> Result<Vec<(u32, Operand)>, AllocError>
    ensures { IfOk result (λ v. v.items ≡ map (shifted_by by) (bound params.now arguments.now)) }
{
    let mut replacements = Vec::new(alloc);
    for place in 0..params.len().min(arguments.len()) {
        let Some(local) = params[place].local.checked_add(by) else {
            return Err(AllocError);
        };
        let operand = arguments[place].operand.duplicate(alloc)?;
        replacements.push((local, operand))?;
    }
    Ok(replacements)
}

/// The number of the last block.
fn last_number(blocks: &[Block]) -> u32
    ensures { (front : List Block) (last : Block) → blocks.now ≡ front ++ last ∷ [] → result ≡ last.number }
{
    match blocks {
        [.., last] => last.number,
        [] => 0,
    }
}

/// The blocks of a function with arguments for parameters, whose numbers stand there with this added to them.
fn with_arguments(
    alloc: Global,
    f: &Function,
    params: &[Param],
    arguments: &[Argument],
    by: u32,
) -> Result<Rows<Block>, AllocError>
    ensures { IfOk result (λ rows. rows ≡ (substituted (map (shifted_by by) (bound params.now arguments.now)) f.now).blocks) }
{
    let replacements = replacements(alloc, params, arguments, by)?;
    let copy = substitute(alloc, f, &replacements)?;
    Ok(copy.blocks)
}

/// The callee's blocks as they are copied into a caller whose numbers are free from this one on, still with their returns,
/// and then an empty block under the number of the one behind the call.
///
/// Beside want of memory, numbers that pass 32 bits are refused.
pub(crate) fn copied(
    alloc: Global,
    callee: &Function,
    arguments: &[Argument],
    free: u32,
) -> Result<Rows<Block>, AllocError>
    ensures { IfOk result (λ rows. Sound callee.now → rows ≡ copied free callee.now arguments.now ++ empty (behind_call free callee.now) ∷ []) }
{
    let last = first_free(callee)?;
    let moved = moved(alloc, callee, last, free)?;
    let Some(by) = last_number(moved.blocks.as_slice()).checked_add(1) else {
        return Err(AllocError);
    };
    with_arguments(alloc, &moved, callee.params.as_slice(), arguments, by)
}
