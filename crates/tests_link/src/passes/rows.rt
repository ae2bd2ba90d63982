//! Rows of the tables: a module before a pass, and what the pass makes of its first function.
ghost use Rattle.std.specs.Prelude.{◌≡◌, IfOk, IfSome, map};
ghost use Rattle.back_end.specs.Inlinable.{AreSound};
ghost use Rattle.back_end.specs.Walking.{bodies_in};
ghost use Rattle.ir_tree.specs.Rules.{Sound};

use back_end::{Bodies, compile, walk};
use block_trim::{merge, trim};
use branch_simplify::branches;
use dead_code::needed;
use inline_site::inline_at;
use ir_edit::renumber;
use ir_facts::apply;
use ir_flow::Flow;
use ir_parse::parse;
use ir_print::print_function;
use ir_tree::{Duplicate, Function, GlobalValue, Text, Verified};
use ir_verify::verify;
use slot_promote::promote;
use std::alloc::{AllocError, Global};

/// What is done to the first function of a module.
#[derive(Clone, Copy)]
pub(crate) enum Pass {
    /// Facts alone.
    Facts,
    /// Facts, dead code, and numbers in the order of the text.
    Optimised,
    /// Dead code alone.
    Needed,
    Slots,
    Branches,
    Trim,
    Merge,
    /// Blocks merged, and numbers in the order of the text.
    Joined,
    /// The module's second function inlined at the place of one call, counted from 1 over phis, instructions and terminators.
    Inline(u32),
    /// The module's second function inlined at two places, one after the other.
    InlineTwice(u32, u32),
    /// One walk that inlines the module's bodies up to a limit.
    Walk(u32),
    /// All of the back end, with the module's bodies up to a limit.
    Made(u32),
}

/// The name of a row, the pass, the text of a module before it, and the printed text of the module's first function after it.
pub(crate) type Row = (&'static str, Pass, &'static [u8], &'static [u8]);

/// The sound module that a text is read as; none where it is read as no such module, or memory runs out.
pub(crate) fn read(alloc: Global, text: &[u8]) -> Option<Verified> {
    match parse(alloc, text) {
        Ok(parsed) => {
            let (module, _flows) = verify(alloc, parsed).ok()?.into_parts();
            Some(module)
        }
        Err(_) => None,
    }
}

/// The function that a module begins with.
pub(crate) fn first(module: &Verified) -> Option<&Function>
    ensures { IfSome result (λ f. Sound f.now) }
{
    match module.module().globals.as_slice() {
        [GlobalValue::Function(f), ..] => Some(f),
        _ => None,
    }
}

/// The function behind the one that a module begins with.
fn second(module: &Verified) -> Option<&Function> {
    match module.module().globals.as_slice() {
        [_, GlobalValue::Function(f), ..] => Some(f),
        _ => None,
    }
}

fn optimised(alloc: Global, f: &Function) -> Result<Function, AllocError>
    requires sound { Sound f.now }
{
    let simplified = apply(alloc, f)?;
    let needed = needed(alloc, &simplified)?;
    renumber(alloc, &needed)
}

fn joined(alloc: Global, f: &Function) -> Result<Function, AllocError> {
    let merged = merge(alloc, f)?;
    renumber(alloc, &merged)
}

/// A function with the callee inlined at this place; as it was where no call of the callee stands there.
fn inlined(
    alloc: Global,
    f: &Function,
    place: u32,
    callee: &Function,
) -> Result<Function, AllocError> {
    match inline_at(alloc, f, place, callee)? {
        Some(g) => Ok(g),
        None => f.duplicate(alloc),
    }
}

/// The function with the callee inlined at these places, one after the other.
fn inlined_at_each(
    alloc: Global,
    f: &Function,
    places: &[u32],
    callee: &Function,
) -> Result<Function, AllocError> {
    let mut made = f.duplicate(alloc)?;
    for place in places {
        made = inlined(alloc, &made, *place, callee)?;
    }
    Ok(made)
}

/// References to these global values.
fn references<'a>(
    alloc: Global,
    globals: &'a [GlobalValue],
) -> Result<Vec<&'a GlobalValue>, AllocError>
    ensures { IfOk result (λ referred. map (λ g. g.now) referred.items ≡ globals.entry.now) }
{
    globals.iter().collect(alloc)
}

/// The bodies of a module up to a limit.
fn bodies(alloc: Global, module: &Verified, limit: u32) -> Result<Bodies<'_>, AllocError>
    ensures { IfOk result (λ b. AreSound (bodies_in b)) }
{
    let globals = references(alloc, module.module().globals.as_slice())?;
    let bodies = Bodies::of(alloc, &globals, limit)?;
    Ok(bodies)
}

/// One walk over the first function of a module.
fn walked(alloc: Global, module: &Verified, limit: u32) -> Result<Option<Function>, AllocError> {
    let bodies = bodies(alloc, module, limit)?;
    match first(module) {
        Some(f) => Ok(Some(walk(alloc, &bodies, f)?)),
        None => Ok(None),
    }
}

/// The first function of a module as the back end makes it, which is told its control flow.
fn compiled(alloc: Global, module: &Verified, limit: u32) -> Result<Option<Function>, AllocError> {
    let bodies = bodies(alloc, module, limit)?;
    match first(module) {
        Some(f) => {
            let flow = Flow::of(alloc, f)?;
            Ok(Some(compile(alloc, &bodies, f, Some(&flow))?))
        }
        None => Ok(None),
    }
}

/// What a pass over one function makes of it.
fn passed(
    alloc: Global,
    pass: Pass,
    f: &Function,
    callee: &Function,
) -> Result<Function, AllocError>
    requires sound { Sound f.now }
{
    match pass {
        Pass::Facts => apply(alloc, f),
        Pass::Optimised => optimised(alloc, f),
        Pass::Needed => needed(alloc, f),
        Pass::Slots => promote(alloc, f),
        Pass::Branches => branches(alloc, f),
        Pass::Trim => trim(alloc, f),
        Pass::Merge => merge(alloc, f),
        Pass::Joined => joined(alloc, f),
        Pass::Inline(place) => inlined(alloc, f, place, callee),
        Pass::InlineTwice(one, other) => inlined_at_each(alloc, f, &[one, other], callee),
        Pass::Walk(_) | Pass::Made(_) => f.duplicate(alloc),
    }
}

/// What is made of the first function of a module; none where it doesn't begin with a function.
fn made(alloc: Global, pass: Pass, module: &Verified) -> Result<Option<Function>, AllocError> {
    match pass {
        Pass::Walk(limit) => walked(alloc, module, limit),
        Pass::Made(limit) => compiled(alloc, module, limit),
        _ => match first(module) {
            Some(f) => {
                let callee = second(module).unwrap_or(f);
                Ok(Some(passed(alloc, pass, f, callee)?))
            }
            None => Ok(None),
        },
    }
}

/// The printed text of what a pass makes of the first function of a module; none where the text is no sound module that
/// begins with a function.
pub(crate) fn after(alloc: Global, pass: Pass, text: &[u8]) -> Result<Option<Text>, AllocError> {
    let Some(module) = read(alloc, text) else {
        return Ok(None);
    };
    let Some(g) = made(alloc, pass, &module)? else {
        return Ok(None);
    };
    let text = print_function(alloc, &g)?;
    Ok(Some(text))
}

/// The name of the first row of a table whose module doesn't become what stands in the row.
pub(crate) fn failing(alloc: Global, rows: &[Row]) -> Result<Option<&'static str>, AllocError> {
    for (name, pass, before, wanted) in rows {
        let is_wanted = match after(alloc, *pass, before)? {
            Some(text) => text.equals(wanted),
            None => false,
        };
        if !is_wanted {
            return Ok(Some(*name));
        }
    }
    Ok(None)
}
