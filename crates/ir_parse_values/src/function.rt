//! Definitions of functions (LangRef, "Functions").
ghost use Rattle.std.specs.Prelude.{◌≡◌, length, Ok};
ghost use Rattle.ir_parse_values.specs.Blocks.{block_in, blocks_in, behind_block};
ghost use Rattle.ir_parse_values.specs.Blocks as definitions;
ghost use Rattle.ir_parse_names.specs.Resolving.{ResolvesTo};

use crate::block::{after, behind_lines, block_of};
use crate::declaration::params_in;
use crate::numbering::locals_of;
use ir_parse_names::{Locals, ResolveError, Types, symbol_of};
use ir_parse_parts::{Block as WrittenBlock, FunctionHeader, WrittenLine};
use ir_tree::{Block, Function, Rows};
use std::alloc::Global;

/// The lines of a block, without its terminator.
pub fn lines_in(block: &WrittenBlock) -> &[WrittenLine]
    ensures { result.now ≡ block.now.lines }
{
    block.lines.as_slice()
}

/// The number behind a block with this number.
fn behind_block(number: u32, block: &WrittenBlock) -> Result<u32, ResolveError>
    ensures { ResolvesTo (λ n. n) result (Ok (behind_block number block.now)) }
{
    let first = after(number)?;
    behind_lines(first, block.lines.as_slice())
}

/// A block with this number.
fn block_in<'t>(
    block: &'t WrittenBlock,
    alloc: Global,
    types: &Types<'t>,
    locals: &Locals<'t>,
    number: u32,
) -> Result<Block, ResolveError>
    ensures { ResolvesTo (λ b. b) result (block_in types.now locals.now number block.now) }
{
    block_of(alloc, types, locals, number, lines_in(block), &block.end)
}

/// The blocks of a function, the first of which takes this number, with their locals known.
pub fn blocks_in<'t>(
    blocks: &'t [WrittenBlock],
    alloc: Global,
    types: &Types<'t>,
    locals: &Locals<'t>,
    first: u32,
) -> Result<Rows<Block>, ResolveError>
    ensures { ResolvesTo (λ bs. bs) result (blocks_in types.now locals.now first blocks.now) }
{
    let mut out = Rows::new(alloc);
    let mut next = first;
    'each: for block in blocks {
        let made = block_in(block, alloc, types, locals, next)?;
        out.push(made)?;
        next = behind_block(next, block)?;
    }
    Ok(out)
}

/// How many parameters there are, which is the number of the first block.
fn first_block(head: &FunctionHeader) -> Result<u32, ResolveError>
    ensures { ResolvesTo (λ n. n) result (Ok (length head.now.params)) }
{
    match u32::try_from(head.params.len()) {
        Ok(first) => Ok(first),
        Err(_) => Err(ResolveError::NoMemory),
    }
}

/// The blocks of a function, whose locals are found first.
fn blocks_of<'t>(
    blocks: &'t [WrittenBlock],
    alloc: Global,
    types: &Types<'t>,
    head: &'t FunctionHeader,
) -> Result<Rows<Block>, ResolveError>
    ensures { ResolvesTo (λ bs. bs) result (definitions.blocks_of types.now head.now.params blocks.now) }
{
    let first = first_block(head)?;
    let locals = locals_of(alloc, head.params.as_slice(), blocks)?;
    blocks_in(blocks, alloc, types, &locals, first)
}

/// What a definition stands for: parameters are numbered from 0 on, then each block is followed by its
/// results. `noinline` and `optnone` say what its attributes come to.
#[tactic(auto, unfolding(crate::specs::Blocks::function_in))]
pub fn function_in<'t>(
    blocks: &'t [WrittenBlock],
    alloc: Global,
    types: &Types<'t>,
    head: &'t FunctionHeader,
    noinline: bool,
    optnone: bool,
) -> Result<Function, ResolveError>
    ensures { ResolvesTo (λ f. f) result (definitions.function_in types.now head.now blocks.now noinline optnone) }
{
    let blocks = blocks_of(blocks, alloc, types, head)?;
    let symbol = symbol_of(alloc, &head.name)?;
    let params = params_in(alloc, head.params.as_slice())?;
    Ok(Function {
        symbol,
        linkage: head.linkage,
        result: head.result,
        params,
        noinline,
        optnone,
        blocks,
    })
}
