//! Whether an initialiser fits a shape (LangRef, "Constants"). It may nest as deep as its text does, so it is checked in one loop over
//! its flat form, with what the open aggregates still want on a stack.
ghost use Rattle.std.specs.Prelude.{◌↔◌, IsTrue, IfOk, reverse, All};
ghost use Rattle.ir_tree.specs.Fits.{Fits, FitsScalar};
ghost use Rattle.ir_tree.specs.Initials.{no_initials, bytes, elements, members};
ghost use Rattle.ir_verify.specs.Wants.{Fills, Takes, Wants, Opened, Begins, GoesOn};

use ir_tree::{Init, InitHead, InitPart, Operand, Reg, Shape, ShapeNode, Text};
use std::alloc::{AllocError, Global};

/// What the parts that are left of an open aggregate have to be.
#[derive(Clone, Copy)]
pub enum Wanted<'a> {
    /// As many parts of one shape.
    Each { left: u64, of: &'a Shape },
    /// Parts of these shapes.
    These { parts: &'a [Shape] },
}

fn fits_scalar(shape: &Shape, operand: &Operand) -> bool
    ensures { IsTrue result ↔ FitsScalar shape.now operand.now }
{
    match shape.node() {
        ShapeNode::Int(width) => match operand {
            Operand::Number { width: given, .. } => *width == *given,
            Operand::Poison(reg) => *reg == Reg::Int(*width),
            _ => false,
        },
        ShapeNode::Ptr => match operand {
            Operand::Null | Operand::Symbol { .. } => true,
            Operand::Poison(reg) => *reg == Reg::Ptr,
            _ => false,
        },
        _ => false,
    }
}

/// Whether a text fits: an array of as many bytes.
fn fits_text(shape: &Shape, text: &Text) -> bool
    ensures { IsTrue result ↔ Fits shape.now (bytes text.now) }
{
    match shape.node() {
        ShapeNode::Array(count, of) => match of.node() {
            ShapeNode::Int(width) => *width == 8 && *count == text.len() as u64,
            _ => false,
        },
        _ => false,
    }
}

/// Whether nothing more is wanted.
fn is_filled(wanted: &Wanted<'_>) -> bool
    ensures { IsTrue result ↔ Fills wanted.now no_initials }
{
    match wanted {
        Wanted::Each { left, .. } => *left == 0,
        Wanted::These { parts } => parts.is_empty(),
    }
}

/// What is wanted behind a part of this shape; none where such a part isn't wanted.
fn taken<'a>(wanted: Wanted<'a>, shape: &Shape) -> Option<Wanted<'a>>
    ensures { Takes wanted.entry shape.now result }
{
    match wanted {
        Wanted::Each { left, of } => {
            if left == 0 {
                return None;
            }
            if of != shape {
                return None;
            }
            Some(Wanted::Each { left: left - 1, of })
        }
        Wanted::These { parts } => match parts {
            [] => None,
            [first, rest @ ..] => {
                if first != shape {
                    return None;
                }
                Some(Wanted::These { parts: rest })
            }
        },
    }
}

/// What a shape wants of the elements of an array; none where it is no array's.
fn elements_wanted(shape: &Shape) -> Option<Wanted<'_>>
    ensures { Wants (λ vs. Fits shape.now (elements vs)) result }
{
    match shape.node() {
        ShapeNode::Array(count, of) => Some(Wanted::Each { left: *count, of }),
        _ => None,
    }
}

/// What a shape wants of the members of a structure; none where it is no such structure's.
fn members_wanted(shape: &Shape, packed: bool) -> Option<Wanted<'_>>
    ensures { Wants (λ vs. Fits shape.now (members packed vs)) result }
{
    match shape.node() {
        ShapeNode::Struct(is_packed, parts) => {
            if *is_packed != packed {
                return None;
            }
            Some(Wanted::These { parts })
        }
        _ => None,
    }
}

/// Opens an aggregate, if its shape allows one; answers whether it does.
fn open_with<'a>(
    wanted: Option<Wanted<'a>>,
    wants: &mut Vec<Wanted<'a>>,
) -> Result<bool, AllocError>
    ensures { IfOk result (λ fits. Opened wanted.entry (reverse wants.old.items) fits (reverse wants.new.items)) }
{
    match wanted {
        None => Ok(false),
        Some(wanted) => {
            wants.push(wanted)?;
            Ok(true)
        }
    }
}

/// The beginning of a value: opens the aggregate that it begins; answers whether it fits as far as it is known.
fn begin<'a>(
    shape: &'a Shape,
    head: &InitHead,
    wants: &mut Vec<Wanted<'a>>,
) -> Result<bool, AllocError>
    ensures { IfOk result (λ fits. Begins shape.now head.now (reverse wants.old.items) fits (reverse wants.new.items)) }
{
    match head {
        InitHead::Plain(operand) => Ok(fits_scalar(shape, operand)),
        InitHead::Zeros => Ok(true),
        InitHead::Bytes(text) => Ok(fits_text(shape, text)),
        InitHead::Array => open_with(elements_wanted(shape), wants),
        InitHead::Struct { packed } => open_with(members_wanted(shape, *packed), wants),
    }
}

/// A part of the innermost aggregate, or its end; answers whether it fits as far as it is known.
fn go_on<'a>(part: &'a InitPart, wants: &mut Vec<Wanted<'a>>) -> Result<bool, AllocError>
    ensures { IfOk result (λ fits. GoesOn part.now (reverse wants.old.items) fits (reverse wants.new.items)) }
{
    let Some(innermost) = wants.pop() else {
        return Ok(true);
    };
    match part {
        InitPart::Typed { shape, head } => {
            let Some(rest) = taken(innermost, shape) else {
                return Ok(false);
            };
            wants.push(rest)?;
            begin(shape, head, wants)
        }
        InitPart::End => Ok(is_filled(&innermost)),
    }
}

/// Whether nothing more is wanted of any aggregate.
fn are_filled(wants: &[Wanted<'_>]) -> bool
    ensures { IsTrue result ↔ All (λ wanted. Fills wanted no_initials) wants.now }
{
    wants.iter().all(|wanted| is_filled(wanted))
}

/// Whether an initialiser fits a shape. Fails for want of memory only, which the depth of the initialiser bounds; time is linear in
/// the initialiser and in the shapes that are written in it.
pub fn init_fits(alloc: Global, shape: &Shape, init: &Init) -> Result<bool, AllocError>
    ensures { IfOk result (λ fits. IsTrue fits ↔ Fits shape.now init.now) }
{
    let (root, parts) = init.flat();
    let mut wants = Vec::new(alloc);
    if !begin(shape, root, &mut wants)? {
        return Ok(false);
    }
    'each: for part in parts {
        if !go_on(part, &mut wants)? {
            return Ok(false);
        }
    }
    Ok(are_filled(&wants))
}
