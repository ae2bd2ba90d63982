//! The names that an initialiser refers to.
ghost use Rattle.std.specs.Prelude.{◌≡◌, ◌++◌, IfOk, OnOk};
ghost use Rattle.ir_summary.specs.Once.{texts};
ghost use Rattle.ir_summary.specs.References.{initial_names, operands_named};
ghost use Rattle.ir_tree.specs.Wholes.{initial_operands};
ghost use Rattle.ir_summary.specs.Walked.{head_named, part_named, parts_named};

use crate::bodies::push_operand;
use ir_tree::{Init, InitHead, InitPart, Variable};
use std::alloc::{AllocError, Global};

fn push_head<'a>(names: &mut Vec<&'a [u8]>, head: &'a InitHead) -> Result<(), AllocError>
    ensures { OnOk result (texts names.new.items ≡ texts names.old.items ++ head_named head.entry.now) }
{
    match head {
        InitHead::Plain(operand) => push_operand(names, operand),
        InitHead::Zeros | InitHead::Bytes(_) | InitHead::Array | InitHead::Struct { .. } => Ok(()),
    }
}

fn push_part<'a>(names: &mut Vec<&'a [u8]>, part: &'a InitPart) -> Result<(), AllocError>
    ensures { OnOk result (texts names.new.items ≡ texts names.old.items ++ part_named part.entry.now) }
{
    match part {
        InitPart::Typed { head, .. } => push_head(names, head),
        InitPart::End => Ok(()),
    }
}

fn push_parts<'a>(names: &mut Vec<&'a [u8]>, parts: &'a [InitPart]) -> Result<(), AllocError>
    ensures { OnOk result (texts names.new.items ≡ texts names.old.items ++ parts_named parts.entry.now) }
{
    for part in parts {
        push_part(names, part)?;
    }
    Ok(())
}

fn init_names<'a>(alloc: Global, init: &'a Init) -> Result<Vec<&'a [u8]>, AllocError>
    ensures { IfOk result (λ names. texts names.items ≡ operands_named (initial_operands init.entry.now)) }
{
    let mut names = Vec::new(alloc);
    let (root, parts) = init.flat();
    push_head(&mut names, root)?;
    push_parts(&mut names, parts)?;
    Ok(names)
}

/// All names that a variable's initialiser refers to, as often as it does.
pub(crate) fn initial_names<'a>(
    alloc: Global,
    variable: &'a Variable,
) -> Result<Vec<&'a [u8]>, AllocError>
    ensures { IfOk result (λ names. texts names.items ≡ initial_names variable.entry.now) }
{
    match &variable.init {
        None => Ok(Vec::new(alloc)),
        Some(init) => init_names(alloc, init),
    }
}
