//! The callees of the direct calls of a body.
ghost use Rattle.std.specs.Prelude.{◌≡◌, ◌++◌, IfOk, OnOk};
ghost use Rattle.ir_summary.specs.Once.{texts};
ghost use Rattle.ir_summary.specs.References.{body_callees, called};
ghost use Rattle.ir_summary.specs.Walked.{blocks_callees, lines_callees};

use ir_tree::{Block, Function, Instr, Line, Operand};
use std::alloc::{AllocError, Global};

fn push_called<'a>(names: &mut Vec<&'a [u8]>, instr: &'a Instr) -> Result<(), AllocError>
    ensures { OnOk result (texts names.new.items ≡ texts names.old.items ++ called instr.entry.now) }
{
    if let Instr::Call { callee, .. } = instr {
        if let Operand::Symbol { symbol, offset } = callee {
            if *offset == 0 {
                names.push(symbol.name.as_slice())?;
            }
        }
    }
    Ok(())
}

fn push_lines<'a>(names: &mut Vec<&'a [u8]>, lines: &'a [Line]) -> Result<(), AllocError>
    ensures { OnOk result (texts names.new.items ≡ texts names.old.items ++ lines_callees lines.entry.now) }
{
    for line in lines {
        push_called(names, &line.instr)?;
    }
    Ok(())
}

fn push_blocks<'a>(names: &mut Vec<&'a [u8]>, blocks: &'a [Block]) -> Result<(), AllocError>
    ensures { OnOk result (texts names.new.items ≡ texts names.old.items ++ blocks_callees blocks.entry.now) }
{
    for block in blocks {
        push_lines(names, block.lines.as_slice())?;
    }
    Ok(())
}

/// The callees of all direct calls of a function's body, as often as they are called.
pub(crate) fn body_callees<'a>(
    alloc: Global,
    function: &'a Function,
) -> Result<Vec<&'a [u8]>, AllocError>
    ensures { IfOk result (λ names. texts names.items ≡ body_callees function.entry.now) }
{
    let mut names = Vec::new(alloc);
    push_blocks(&mut names, function.blocks.as_slice())?;
    Ok(names)
}
