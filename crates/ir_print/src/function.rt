//! Writes functions.
ghost use Rattle.std.specs.Prelude.{◌≡◌, ◌++◌, IfOk};
ghost use Rattle.ir_print.specs.Functions as functions;
ghost use Rattle.ir_print.specs.Wrote.{Wrote};

use crate::block::put_blocks;
use crate::token::{COMMA, NEXT_LINE, SPACE, TIGHT, global, local, mark, optional, word};
use crate::types::{register, result_type};
use ir_tree::{Block, Function, Linkage, Param};
use std::alloc::AllocError;

/// The linkage's word, and none for `external`.
pub(crate) fn put_linkage(linkage: Linkage, out: &mut Vec<u8>) -> Result<(), AllocError>
    ensures { IfOk result (λ _. Wrote (functions.linkage linkage) out.old.items out.new.items) }
{
    match linkage {
        Linkage::Private => word(SPACE, b"private", out),
        Linkage::Internal => word(SPACE, b"internal", out),
        Linkage::External => Ok(()),
        Linkage::Linkonce => word(SPACE, b"linkonce", out),
        Linkage::LinkonceOdr => word(SPACE, b"linkonce_odr", out),
        Linkage::Weak => word(SPACE, b"weak", out),
        Linkage::WeakOdr => word(SPACE, b"weak_odr", out),
        Linkage::AvailableExternally => word(SPACE, b"available_externally", out),
    }
}

/// `T %n`.
fn param(lead: &[u8], p: &Param, out: &mut Vec<u8>) -> Result<(), AllocError>
    ensures { IfOk result (λ _. Wrote (functions.param lead.now p.now) out.old.items out.new.items) }
{
    register(lead, p.reg, out)?;
    local(SPACE, p.local, out)
}

/// The parameters of a definition.
fn put_params(list: &[Param], out: &mut Vec<u8>) -> Result<(), AllocError>
    ensures { IfOk result (λ _. Wrote (functions.params list.now) out.old.items out.new.items) }
{
    match list {
        [] => Ok(()),
        [first, rest @ ..] => {
            param(TIGHT, first, out)?;
            'each: for p in rest {
                param(COMMA, p, out)?;
            }
            Ok(())
        }
    }
}

/// The parameters of a declaration, which have no names.
fn put_types(list: &[Param], out: &mut Vec<u8>) -> Result<(), AllocError>
    ensures { IfOk result (λ _. Wrote (functions.types list.now) out.old.items out.new.items) }
{
    match list {
        [] => Ok(()),
        [first, rest @ ..] => {
            register(TIGHT, first.reg, out)?;
            'each: for p in rest {
                register(COMMA, p.reg, out)?;
            }
            Ok(())
        }
    }
}

/// `T @f(`.
fn signature(f: &Function, out: &mut Vec<u8>) -> Result<(), AllocError>
    ensures { IfOk result (λ _. Wrote (functions.signature f.now) out.old.items out.new.items) }
{
    result_type(f.result, out)?;
    global(SPACE, f.symbol.name.as_slice(), out)?;
    mark(TIGHT, b'(', out)
}

fn declaration(f: &Function, out: &mut Vec<u8>) -> Result<(), AllocError>
    ensures { IfOk result (λ _. Wrote (functions.declaration f.now) out.old.items out.new.items) }
{
    word(TIGHT, b"declare", out)?;
    signature(f, out)?;
    put_types(f.params.as_slice(), out)?;
    mark(TIGHT, b')', out)
}

fn attributes(f: &Function, out: &mut Vec<u8>) -> Result<(), AllocError>
    ensures { IfOk result (λ _. Wrote (functions.attributes f.now) out.old.items out.new.items) }
{
    optional(b"noinline", f.noinline, out)?;
    optional(b"optnone", f.optnone, out)
}

/// `{ blocks }`.
fn body(blocks: &[Block], out: &mut Vec<u8>) -> Result<(), AllocError>
    ensures { IfOk result (λ _. Wrote (functions.body blocks.now) out.old.items out.new.items) }
{
    mark(SPACE, b'{', out)?;
    put_blocks(blocks, out)?;
    mark(NEXT_LINE, b'}', out)
}

fn definition(f: &Function, out: &mut Vec<u8>) -> Result<(), AllocError>
    ensures { IfOk result (λ _. Wrote (functions.definition f.now) out.old.items out.new.items) }
{
    word(TIGHT, b"define", out)?;
    put_linkage(f.linkage, out)?;
    signature(f, out)?;
    put_params(f.params.as_slice(), out)?;
    mark(TIGHT, b')', out)?;
    attributes(f, out)?;
    body(f.blocks.as_slice(), out)
}

/// A function: a declaration where it has no blocks.
pub(crate) fn put_function(f: &Function, out: &mut Vec<u8>) -> Result<(), AllocError>
    ensures { IfOk result (λ _. Wrote (functions.function f.now) out.old.items out.new.items) }
{
    match f.blocks.as_slice() {
        [] => declaration(f, out),
        [_, ..] => definition(f, out),
    }
}
