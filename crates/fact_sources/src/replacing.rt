//! Uses replaced in their places: lines, phis and terminators none of whose uses is replaced stay as they are.
ghost use Rattle.std.specs.Prelude.{◌≡◌, map, OnOk};
ghost use Rattle.ir_tree.specs.Edited.{block_edited, end_edited, instr_edited, line_edited, phi_edited};
ghost use Rattle.ir_edit.specs.Substituted.{operand_replaced};
ghost use Rattle.fact_sources.specs.Substitutions.{value_in};

use crate::naming::{end_names, instr_names, phis_name};
use crate::substitution::Substitution;
use ir_edit::{end_edited, instr_edited, phis_edited};
use ir_tree::{Block, Instr, Line, Phi, Rows, Terminator};
use std::alloc::{AllocError, Global};
use std::mem::replace;

// A part of a block without such a use stays as it is.

/// Each use in these phis replaced.
fn replace_in_phis(
    alloc: Global,
    phis: &mut Rows<Phi>,
    substitution: &Substitution<'_>,
) -> Result<(), AllocError>
    ensures { OnOk result (phis.new ≡ map (phi_edited (λ x. x) (operand_replaced (value_in substitution.now))) phis.old) }
{
    let named = phis_name(substitution, phis.as_slice());
    if !named {
        return Ok(());
    }
    let made = phis_edited(alloc, substitution, phis.as_slice())?;
    drop(replace(phis, made));
    Ok(())
}

/// Each use in an instruction replaced.
fn replace_in_instr(
    alloc: Global,
    instr: &mut Instr,
    substitution: &Substitution<'_>,
) -> Result<(), AllocError>
    ensures { OnOk result (instr.new ≡ instr_edited (λ x. x) (operand_replaced (value_in substitution.now)) instr.old) }
{
    let named = instr_names(substitution, instr);
    if !named {
        return Ok(());
    }
    let made = instr_edited(alloc, substitution, instr)?;
    drop(replace(instr, made));
    Ok(())
}

/// Each use in a line replaced.
fn replace_in_line(
    alloc: Global,
    line: &mut Line,
    substitution: &Substitution<'_>,
) -> Result<(), AllocError>
    ensures { OnOk result (line.new ≡ line_edited (λ x. x) (operand_replaced (value_in substitution.now)) line.old) }
{
    replace_in_instr(alloc, &mut line.instr, substitution)?;
    Ok(())
}

/// Each use in these lines replaced.
fn replace_in_each(
    alloc: Global,
    lines: &mut [Line],
    substitution: &Substitution<'_>,
) -> Result<(), AllocError>
    ensures { OnOk result (lines.new ≡ map (line_edited (λ x. x) (operand_replaced (value_in substitution.now))) lines.old) }
{
    for line in lines.iter_mut() {
        replace_in_line(alloc, line, substitution)?;
    }
    Ok(())
}

/// Each use in the lines of a block replaced, in their place.
fn replace_in_lines(
    alloc: Global,
    lines: &mut Rows<Line>,
    substitution: &Substitution<'_>,
) -> Result<(), AllocError>
    ensures { OnOk result (lines.new ≡ map (line_edited (λ x. x) (operand_replaced (value_in substitution.now))) lines.old) }
{
    let mut items = replace(lines, Rows::new(alloc)).into_vec();
    replace_in_each(alloc, items.as_mut_slice(), substitution)?;
    drop(replace(lines, Rows::of(items)));
    Ok(())
}

/// Each use in a terminator replaced.
fn replace_in_end(
    alloc: Global,
    end: &mut Terminator,
    substitution: &Substitution<'_>,
) -> Result<(), AllocError>
    ensures { OnOk result (end.new ≡ end_edited (λ x. x) (operand_replaced (value_in substitution.now)) end.old) }
{
    let named = end_names(substitution, end);
    if !named {
        return Ok(());
    }
    let made = end_edited(alloc, substitution, end)?;
    drop(replace(end, made));
    Ok(())
}

/// Each use in a block replaced.
fn replace_in(
    alloc: Global,
    block: &mut Block,
    substitution: &Substitution<'_>,
) -> Result<(), AllocError>
    ensures { OnOk result (block.new ≡ block_edited (λ x. x) (operand_replaced (value_in substitution.now)) block.old) }
{
    replace_in_phis(alloc, &mut block.phis, substitution)?;
    replace_in_lines(alloc, &mut block.lines, substitution)?;
    replace_in_end(alloc, &mut block.end, substitution)?;
    Ok(())
}

/// Each use of a local that the substitution has replaced in these blocks, in its place.
pub fn replace_all(
    alloc: Global,
    blocks: &mut [Block],
    substitution: &Substitution<'_>,
) -> Result<(), AllocError>
    ensures { OnOk result (blocks.new ≡ map (block_edited (λ x. x) (operand_replaced (value_in substitution.now))) blocks.old) }
{
    for block in blocks.iter_mut() {
        replace_in(alloc, block, substitution)?;
    }
    Ok(())
}
