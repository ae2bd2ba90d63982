//! The definitions of a function, in the order of its text (LangRef, "Identifiers" and "Functions").
ghost use Rattle.std.specs.Prelude.{◌≡◌, [], Ok, Some, None};
ghost use Rattle.ir_parse_names.specs.Numbering.{has_result, is_defined, with_params, with_line, with_lines, with_block, with_blocks, locals_of};
ghost use Rattle.ir_parse_names.specs.Numbering as numbering;
ghost use Rattle.ir_parse_names.specs.Resolving.{ResolvesTo};

use ir_parse_names::{Locals, ResolveError, Sort};
use ir_parse_parts::{Block, Instr, Param, WrittenLine};
use std::alloc::Global;

/// Whether an instruction has a result, which takes a number where it has no name.
pub fn has_result(instr: &Instr) -> bool
    ensures { result ≡ has_result instr.now }
{
    match instr {
        Instr::Call { result, .. } => result.is_some(),
        Instr::Store { .. } => false,
        _ => true,
    }
}

/// Whether a line defines a local.
pub fn is_defined(line: &WrittenLine) -> bool
    ensures { result ≡ is_defined line.now }
{
    line.name.is_some() || has_result(&line.instr)
}

fn with_params<'t>(
    alloc: Global,
    locals: &mut Locals<'t>,
    params: &'t [Param],
) -> Result<(), ResolveError>
    ensures { ResolvesTo (λ _. locals.new) result (with_params locals.old params.now) }
{
    'each: for param in params {
        locals.define(alloc, param.name.as_ref(), Sort::Value)?;
    }
    Ok(())
}

fn with_line<'t>(
    alloc: Global,
    locals: &mut Locals<'t>,
    line: &'t WrittenLine,
) -> Result<(), ResolveError>
    ensures { ResolvesTo (λ _. locals.new) result (with_line locals.old line.now) }
{
    if is_defined(line) {
        locals.define(alloc, line.name.as_ref(), Sort::Value)
    } else {
        Ok(())
    }
}

fn with_lines<'t>(
    alloc: Global,
    locals: &mut Locals<'t>,
    lines: &'t [WrittenLine],
) -> Result<(), ResolveError>
    ensures { ResolvesTo (λ _. locals.new) result (with_lines locals.old lines.now) }
{
    'each: for line in lines {
        with_line(alloc, locals, line)?;
    }
    Ok(())
}

#[tactic(auto, unfolding(ir_parse_names::specs::Numbering::with_block))]
fn with_block<'t>(
    alloc: Global,
    locals: &mut Locals<'t>,
    block: &'t Block,
) -> Result<(), ResolveError>
    ensures { ResolvesTo (λ _. locals.new) result (with_block locals.old block.now) }
{
    locals.define(alloc, block.label.as_ref(), Sort::Block)?;
    with_lines(alloc, locals, block.lines.as_slice())
}

fn with_blocks<'t>(
    alloc: Global,
    locals: &mut Locals<'t>,
    blocks: &'t [Block],
) -> Result<(), ResolveError>
    ensures { ResolvesTo (λ _. locals.new) result (with_blocks locals.old blocks.now) }
{
    'each: for block in blocks {
        with_block(alloc, locals, block)?;
    }
    Ok(())
}

/// The definitions of a declaration: its parameters.
#[tactic(auto, unfolding(ir_parse_names::specs::Numbering::locals_of))]
pub fn params_of<'t>(alloc: Global, params: &'t [Param]) -> Result<Locals<'t>, ResolveError>
    ensures { ResolvesTo (λ k. k) result (numbering.locals_of params.now []) }
{
    let mut locals = Locals::new(alloc);
    with_params(alloc, &mut locals, params)?;
    Ok(locals)
}

/// The definitions of a function: its parameters, and each block before its results.
#[tactic(auto, unfolding(ir_parse_names::specs::Numbering::locals_of))]
pub fn locals_of<'t>(
    alloc: Global,
    params: &'t [Param],
    blocks: &'t [Block],
) -> Result<Locals<'t>, ResolveError>
    ensures { ResolvesTo (λ k. k) result (numbering.locals_of params.now blocks.now) }
{
    let mut locals = Locals::new(alloc);
    with_params(alloc, &mut locals, params)?;
    with_blocks(alloc, &mut locals, blocks)?;
    Ok(locals)
}
