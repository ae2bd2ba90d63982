//! Writes types.
ghost use Rattle.std.specs.Prelude.{◌≡◌, ◌++◌, IfOk};
ghost use Rattle.std.specs.Prelude.{true};
ghost use Rattle.ir_tree.specs.Forms as forms;
ghost use Rattle.ir_tree.specs.Forms.{forms_of};
ghost use Rattle.ir_print.specs.Types as types;
ghost use Rattle.ir_print.specs.Wrote.{Wrote};

use crate::token::{COMMA, SPACE, TIGHT, mark, natural, width, word};
use ir_tree::{Reg, Shape, ShapeNode};
use std::alloc::AllocError;

/// A register's type.
pub(crate) fn register(lead: &[u8], reg: Reg, out: &mut Vec<u8>) -> Result<(), AllocError>
    ensures { IfOk result (λ _. Wrote (types.register lead.now reg) out.old.items out.new.items) }
{
    match reg {
        Reg::Int(w) => width(lead, w, out),
        Reg::Ptr => word(lead, b"ptr", out),
    }
}

/// What a function gives: a register's type, or `void`.
pub(crate) fn result_type(reg: Option<Reg>, out: &mut Vec<u8>) -> Result<(), AllocError>
    ensures { IfOk result (λ _. Wrote (types.result reg) out.old.items out.new.items) }
{
    match reg {
        None => word(SPACE, b"void", out),
        Some(reg) => register(SPACE, reg, out),
    }
}

/// A shape. Shapes nest at most 32 deep, and so does this call.
#[cycle(shapes)]
pub(crate) fn shape(lead: &[u8], of: &Shape, out: &mut Vec<u8>) -> Result<(), AllocError>
    ensures { IfOk result (λ _. Wrote (types.shape lead.now of.now) out.old.items out.new.items) }
{
    match of.node() {
        ShapeNode::Int(w) => width(lead, *w, out),
        ShapeNode::Ptr => word(lead, b"ptr", out),
        ShapeNode::Array(count, element) => array(lead, *count, element, out),
        ShapeNode::Struct(packed, parts) => {
            if *packed {
                packed_structure(lead, parts, out)
            } else {
                mark(lead, b'{', out)?;
                members(parts, out)
            }
        }
    }
}

/// `[count x of]`.
#[cycle(shapes)]
fn array(lead: &[u8], count: u64, of: &Shape, out: &mut Vec<u8>) -> Result<(), AllocError>
    ensures { IfOk result (λ _. Wrote (types.shape lead.now (forms.array count of.now)) out.old.items out.new.items) }
{
    mark(lead, b'[', out)?;
    natural(TIGHT, count, out)?;
    shape(b" x ", of, out)?;
    mark(TIGHT, b']', out)
}

/// `<{ parts }>`.
#[cycle(shapes)]
fn packed_structure(lead: &[u8], parts: &[Shape], out: &mut Vec<u8>) -> Result<(), AllocError>
    ensures { IfOk result (λ _. Wrote (types.shape lead.now (forms.structure true (forms_of parts.now))) out.old.items out.new.items) }
{
    word(lead, b"<{", out)?;
    members(parts, out)?;
    mark(TIGHT, b'>', out)
}

/// The members of a structure, and the brace that closes it.
#[cycle(shapes)]
fn members(parts: &[Shape], out: &mut Vec<u8>) -> Result<(), AllocError>
    ensures { IfOk result (λ _. Wrote (types.members (forms_of parts.now)) out.old.items out.new.items) }
{
    match parts {
        [] => mark(TIGHT, b'}', out),
        [first, rest @ ..] => {
            shape(SPACE, first, out)?;
            further_members(rest, out)?;
            mark(SPACE, b'}', out)
        }
    }
}

#[cycle(shapes)]
fn further_members(parts: &[Shape], out: &mut Vec<u8>) -> Result<(), AllocError>
    ensures { IfOk result (λ _. Wrote (types.further_members (forms_of parts.now)) out.old.items out.new.items) }
{
    'each: for part in parts {
        shape(COMMA, part, out)?;
    }
    Ok(())
}
