//! The marks of the items of a module (LangRef, "Module Structure").
ghost use Rattle.std.specs.Prelude.{◌≡◌, ◌++◌, OnOk};
ghost use Rattle.ir_parse_names.specs.Marks as marked;

use crate::instructions::{blocks, operand_marks};
use crate::mark::{Mark, Marks};
use crate::uses::{typed_marks, uses_if};
use ir_parse_parts::{Init, InitHead, InitPart, Item, Variable};
use std::alloc::AllocError;

fn head_marks<'t>(head: &'t InitHead, marks: &mut Marks<'t>) -> Result<(), AllocError>
    ensures { OnOk result (marks.new ≡ marks.old ++ marked.head_marks head.now) }
{
    match head {
        InitHead::Plain(operand) => operand_marks(operand, marks),
        _ => Ok(()),
    }
}

#[tactic(auto, using(crate::proofs::Gathering::joined))]
fn part_marks<'t>(part: &'t InitPart, marks: &mut Marks<'t>) -> Result<(), AllocError>
    ensures { OnOk result (marks.new ≡ marks.old ++ marked.part_marks part.now) }
{
    match part {
        InitPart::Typed { typed, head } => {
            typed_marks(typed, marks)?;
            head_marks(head, marks)
        }
        InitPart::End => Ok(()),
    }
}

fn all_parts<'t>(parts: &'t [InitPart], marks: &mut Marks<'t>) -> Result<(), AllocError>
    ensures { OnOk result (marks.new ≡ marks.old ++ marked.all marked.part_marks parts.now) }
{
    'each: for part in parts {
        part_marks(part, marks)?;
    }
    Ok(())
}

#[tactic(auto, using(crate::proofs::Gathering::joined))]
fn init_marks<'t>(init: &'t Option<Init>, marks: &mut Marks<'t>) -> Result<(), AllocError>
    ensures { OnOk result (marks.new ≡ marks.old ++ marked.init_marks init.now) }
{
    match init {
        None => Ok(()),
        Some(init) => {
            head_marks(&init.root, marks)?;
            all_parts(init.parts.as_slice(), marks)
        }
    }
}

#[tactic(auto, using(crate::proofs::Gathering::joined))]
fn variable_marks<'t>(variable: &'t Variable, marks: &mut Marks<'t>) -> Result<(), AllocError>
    ensures { OnOk result (marks.new ≡ marks.old ++ marked.variable_marks variable.now) }
{
    marks.push(Mark::Global(&variable.name))?;
    typed_marks(&variable.typed, marks)?;
    init_marks(&variable.init, marks)
}

#[tactic(auto, using(crate::proofs::Gathering::joined))]
fn item_marks<'t>(item: &'t Item, marks: &mut Marks<'t>) -> Result<(), AllocError>
    ensures { OnOk result (marks.new ≡ marks.old ++ marked.item_marks item.now) }
{
    match item {
        Item::Type(name, typed) => {
            marks.push(Mark::TypeName(name, typed))?;
            uses_if(typed, marks)
        }
        Item::Variable(variable) => variable_marks(variable, marks),
        Item::Declaration(head) => marks.push(Mark::Global(&head.name)),
        Item::Definition(head, body) => {
            marks.push(Mark::Global(&head.name))?;
            blocks(body.as_slice(), marks)
        }
        _ => Ok(()),
    }
}

/// Keeps what names a type or a global in the items of a module, and what has a shape, in the order of the
/// text.
pub fn gather<'t>(items: &'t [Item], marks: &mut Marks<'t>) -> Result<(), AllocError>
    ensures { OnOk result (marks.new ≡ marks.old ++ marked.marks_of items.now) }
{
    'each: for item in items {
        item_marks(item, marks)?;
    }
    Ok(())
}
