//! Writes global variables and their initialisers. An initialiser may nest as deep as its text does, so it is written in
//! one loop over its flat form, with the aggregates that are open on a stack.
ghost use Rattle.std.specs.Prelude.{◌≡◌, ◌++◌, ◌∷◌, [], true, IfOk};
ghost use Rattle.ir_print.specs.Variables as variables;
ghost use Rattle.ir_print.specs.Wrote.{Wrote};
ghost use Rattle.std.specs.Prelude.{reverse};
ghost use Rattle.ir_print.specs.Initials as initials;

use crate::function::put_linkage;
use crate::instruction::aligned;
use crate::level::Level;
use crate::operand::operand;
use crate::token::{COMMA, SPACE, TIGHT, global, mark, string, word};
use crate::types::shape;
use ir_tree::{Init, InitHead, InitPart, Linkage, Shape, Variable};
use std::alloc::{AllocError, Global};

fn level_of(packed: bool) -> Level
    ensures { result ≡ variables.level_of packed }
{
    if packed {
        Level::PackedStruct
    } else {
        Level::Struct
    }
}

fn put_opening(level: Level, out: &mut Vec<u8>) -> Result<(), AllocError>
    ensures { IfOk result (λ _. Wrote (variables.opening level) out.old.items out.new.items) }
{
    match level {
        Level::Array => mark(SPACE, b'[', out),
        Level::Struct => mark(SPACE, b'{', out),
        Level::PackedStruct => mark(b" <", b'{', out),
    }
}

/// What closes a structure: its brace stands apart where there are members.
fn put_brace(is_empty: bool, out: &mut Vec<u8>) -> Result<(), AllocError>
    ensures { IfOk result (λ _. Wrote (variables.closing_brace is_empty) out.old.items out.new.items) }
{
    if is_empty {
        mark(TIGHT, b'}', out)
    } else {
        mark(SPACE, b'}', out)
    }
}

fn put_closing(level: Level, is_empty: bool, out: &mut Vec<u8>) -> Result<(), AllocError>
    ensures { IfOk result (λ _. Wrote (variables.closing level is_empty) out.old.items out.new.items) }
{
    match level {
        Level::Array => mark(TIGHT, b']', out),
        Level::Struct => put_brace(is_empty, out),
        Level::PackedStruct => {
            put_brace(is_empty, out)?;
            mark(TIGHT, b'>', out)
        }
    }
}

fn part_shape(level: Level, is_first: bool, of: &Shape, out: &mut Vec<u8>) -> Result<(), AllocError>
    ensures { IfOk result (λ _. Wrote (variables.part_shape level is_first of.now) out.old.items out.new.items) }
{
    if !is_first {
        return shape(COMMA, of, out);
    }
    match level {
        Level::Array => shape(TIGHT, of, out),
        Level::Struct => shape(SPACE, of, out),
        Level::PackedStruct => shape(SPACE, of, out),
    }
}

/// Opens an aggregate, whose next part is its first.
fn begin(level: Level, levels: &mut Vec<Level>, out: &mut Vec<u8>) -> Result<bool, AllocError>
    ensures wrote { IfOk result (λ _. Wrote (variables.opening level) out.old.items out.new.items) }
    ensures opened { IfOk result (λ _. levels.new.items ≡ levels.old.items ++ level ∷ []) }
    ensures first { IfOk result (λ is_first. is_first ≡ true) }
{
    put_opening(level, out)?;
    levels.push(level)?;
    Ok(true)
}

/// The beginning of a value; answers whether the next part is a first one.
fn put_head(head: &InitHead, levels: &mut Vec<Level>, out: &mut Vec<u8>) -> Result<bool, AllocError>
    ensures wrote { IfOk result (λ _. Wrote (initials.beginning head.now) out.old.items out.new.items) }
    ensures opened { IfOk result (λ _. reverse levels.new.items ≡ initials.opened_by head.now (reverse levels.old.items)) }
    ensures first { IfOk result (λ is_first. is_first ≡ initials.opens head.now) }
{
    match head {
        InitHead::Plain(x) => operand(SPACE, x, out)?,
        InitHead::Zeros => word(SPACE, b"zeroinitializer", out)?,
        InitHead::Bytes(text) => string(b" c", text.as_slice(), out)?,
        InitHead::Array => return begin(Level::Array, levels, out),
        InitHead::Struct { packed } => return begin(level_of(*packed), levels, out),
    }
    Ok(false)
}

/// A part of the innermost aggregate, or its end; answers whether the next part is a first one.
fn put_part(
    part: &InitPart,
    is_first: bool,
    levels: &mut Vec<Level>,
    out: &mut Vec<u8>,
) -> Result<bool, AllocError>
    ensures wrote { IfOk result (λ _. Wrote (initials.part (reverse levels.old.items) is_first part.now) out.old.items out.new.items) }
    ensures opened { IfOk result (λ _. reverse levels.new.items ≡ initials.open_behind (reverse levels.old.items) part.now) }
    ensures first { IfOk result (λ now. now ≡ initials.first_behind (reverse levels.old.items) is_first part.now) }
{
    let Some(level) = levels.pop() else {
        return Ok(is_first);
    };
    match part {
        InitPart::Typed { shape, head } => {
            part_shape(level, is_first, shape, out)?;
            levels.push(level)?;
            put_head(head, levels, out)
        }
        InitPart::End => {
            put_closing(level, is_first, out)?;
            Ok(false)
        }
    }
}

/// The parts that are left of the aggregates that are open.
fn put_parts(
    parts: &[InitPart],
    is_first: bool,
    levels: &mut Vec<Level>,
    out: &mut Vec<u8>,
) -> Result<(), AllocError>
    ensures { IfOk result (λ _. Wrote (initials.parts (reverse levels.old.items) is_first parts.now) out.old.items out.new.items) }
{
    let mut is_next_first = is_first;
    'each: for part in parts {
        is_next_first = put_part(part, is_next_first, levels, out)?;
    }
    Ok(())
}

/// The value that a variable begins with.
fn put_value(alloc: Global, init: &Init, out: &mut Vec<u8>) -> Result<(), AllocError>
    ensures { IfOk result (λ _. Wrote (variables.value init.now) out.old.items out.new.items) }
{
    let (root, parts) = init.flat();
    let mut levels = Vec::new(alloc);
    let is_first = put_head(root, &mut levels, out)?;
    put_parts(parts, is_first, &mut levels, out)
}

fn kind(is_constant: bool, out: &mut Vec<u8>) -> Result<(), AllocError>
    ensures { IfOk result (λ _. Wrote (variables.kind_word is_constant) out.old.items out.new.items) }
{
    if is_constant {
        word(SPACE, b"constant", out)
    } else {
        word(SPACE, b"global", out)
    }
}

/// The linkage, which is `external` for a declaration.
fn linked(init: &Option<Init>, linkage: Linkage, out: &mut Vec<u8>) -> Result<(), AllocError>
    ensures { IfOk result (λ _. Wrote (variables.linked init.now linkage) out.old.items out.new.items) }
{
    match init {
        None => word(SPACE, b"external", out),
        Some(_) => put_linkage(linkage, out),
    }
}

fn given(alloc: Global, init: &Option<Init>, out: &mut Vec<u8>) -> Result<(), AllocError>
    ensures { IfOk result (λ _. Wrote (variables.given init.now) out.old.items out.new.items) }
{
    match init {
        None => Ok(()),
        Some(init) => put_value(alloc, init, out),
    }
}

/// A variable, defined or declared.
pub(crate) fn put_variable(alloc: Global, v: &Variable, out: &mut Vec<u8>) -> Result<(), AllocError>
    ensures { IfOk result (λ _. Wrote (variables.variable v.now) out.old.items out.new.items) }
{
    global(TIGHT, v.symbol.name.as_slice(), out)?;
    mark(SPACE, b'=', out)?;
    linked(&v.init, v.linkage, out)?;
    kind(v.constant, out)?;
    shape(SPACE, &v.shape, out)?;
    given(alloc, &v.init, out)?;
    aligned(v.align, out)
}
