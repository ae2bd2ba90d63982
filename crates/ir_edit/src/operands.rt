//! Operands in lists, each changed.
ghost use Rattle.std.specs.Prelude.{◌≡◌, IfOk, map};
ghost use Rattle.ir_tree.specs.Edited.{argument_edited, incoming_edited};

use crate::edit::Edit;
use ir_tree::{Argument, Incoming, Rows};
use std::alloc::{AllocError, Global};

pub(crate) fn argument_edited<E: Edit>(
    alloc: Global,
    edit: &E,
    argument: &Argument,
) -> Result<Argument, AllocError>
    ensures { IfOk result (λ a. a ≡ argument_edited (E.operand_of edit.now) argument.now) }
{
    let operand = edit.operand(alloc, &argument.operand)?;
    Ok(Argument {
        reg: argument.reg,
        operand,
    })
}

pub(crate) fn arguments_edited<E: Edit>(
    alloc: Global,
    edit: &E,
    arguments: &[Argument],
) -> Result<Rows<Argument>, AllocError>
    ensures { IfOk result (λ rows. rows ≡ map (argument_edited (E.operand_of edit.now)) arguments.now) }
{
    let mut rows = Rows::new(alloc);
    for old in arguments {
        rows.push(argument_edited(alloc, edit, old)?)?;
    }
    Ok(rows)
}

fn edge_edited<E: Edit>(alloc: Global, edit: &E, edge: &Incoming) -> Result<Incoming, AllocError>
    ensures { IfOk result (λ e. e ≡ incoming_edited (E.number_of edit.now) (E.operand_of edit.now) edge.now) }
{
    let from = edit.number(edge.from)?;
    let value = edit.operand(alloc, &edge.value)?;
    Ok(Incoming { from, value })
}

pub(crate) fn edges_edited<E: Edit>(
    alloc: Global,
    edit: &E,
    incoming: &[Incoming],
) -> Result<Rows<Incoming>, AllocError>
    ensures { IfOk result (λ rows. rows ≡ map (incoming_edited (E.number_of edit.now) (E.operand_of edit.now)) incoming.now) }
{
    let mut rows = Rows::new(alloc);
    for old in incoming {
        rows.push(edge_edited(alloc, edit, old)?)?;
    }
    Ok(rows)
}
