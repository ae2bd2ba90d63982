//! The lines that the faults of a module's global values are told by.
ghost use Rattle.std.specs.Prelude.{◌≡◌, ◌++◌, IfOk, OnOk, flat_map};
ghost use Rattle.ir_parse.specs.Lines.{block_lines, item_lines};
ghost use Rattle.ir_parse.specs.Lines as definitions;

use ir_parse_parts::{Block, Item};
use ir_tree::Rows;
use std::alloc::{AllocError, Global};

/// The lines of a block's phis, instructions and terminator, at the end of these.
fn push_block(block: &Block, lines: &mut Rows<u32>) -> Result<(), AllocError>
    ensures { OnOk result (lines.new ≡ lines.old ++ block_lines block.now) }
{
    'each: for line in block.lines.as_slice() {
        lines.push(line.line)?;
    }
    lines.push(block.end_line)?;
    Ok(())
}

/// The lines of all blocks of a function.
fn function_lines(alloc: Global, blocks: &[Block]) -> Result<Rows<u32>, AllocError>
    ensures { IfOk result (λ ls. ls ≡ flat_map block_lines blocks.now) }
{
    let mut lines = Rows::new(alloc);
    'each: for block in blocks {
        push_block(block, &mut lines)?;
    }
    Ok(lines)
}

/// The lines of an item, where it is a global value.
fn item_lines(alloc: Global, item: &Item) -> Result<Option<Rows<u32>>, AllocError>
    ensures { IfOk result (λ ls. ls ≡ item_lines item.now) }
{
    match item {
        Item::Variable(variable) => {
            let mut lines = Rows::new(alloc);
            lines.push(variable.line)?;
            Ok(Some(lines))
        }
        Item::Declaration(_) => Ok(Some(Rows::new(alloc))),
        Item::Definition(_, blocks) => {
            let lines = function_lines(alloc, blocks.as_slice())?;
            Ok(Some(lines))
        }
        Item::Datalayout(_) | Item::Triple(_) | Item::Attributes { .. } | Item::Type(..) => Ok(
            None,
        ),
    }
}

/// For each global value in order the lines, counted from 1, on which its parts begin: of a variable
/// its own, of a function those of its phis, instructions and terminators in the order of the text,
/// of a declaration none.
pub fn lines_of(alloc: Global, items: &[Item]) -> Result<Rows<Rows<u32>>, AllocError>
    ensures { IfOk result (λ ls. ls ≡ definitions.lines_of items.now) }
{
    let mut out = Rows::new(alloc);
    'each: for item in items {
        if let Some(lines) = item_lines(alloc, item)? {
            out.push(lines)?;
        }
    }
    Ok(out)
}
