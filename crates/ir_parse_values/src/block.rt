//! The lines of blocks with their names resolved (LangRef, "Functions").
ghost use Rattle.std.specs.Prelude.{◌≡◌, ◌+◌, OnOk, Ok, IfOk};
ghost use Rattle.ir_parse_names.specs.Bodies.{local_at, behind_line, behind_lines};
ghost use Rattle.ir_parse_values.specs.Blocks.{body_in, block_of};
ghost use Rattle.ir_parse_values.specs.BodyLaws.{line_onto, placed};
ghost use Rattle.ir_parse_names.specs.Resolving.{ResolvesTo};

use crate::instr::instr_in;
use crate::numbering::is_defined;
use crate::terminator::end_in;
use ir_parse_names::{Locals, ResolveError, Types};
use ir_parse_parts::{Terminator as WrittenEnd, WrittenLine};
use ir_tree::{Block, Instr, Line, Phi, Rows};
use std::alloc::Global;

/// The phis that stand first in a block, and its other lines.
#[derive(Drop)]
pub struct Body {
    pub phis: Rows<Phi>,
    pub lines: Rows<Line>,
}

/// The number behind this one.
pub fn after(number: u32) -> Result<u32, ResolveError>
    ensures { ResolvesTo (λ n. n) result (Ok (number + 1)) }
{
    match number.checked_add(1) {
        Some(next) => Ok(next),
        None => Err(ResolveError::NoMemory),
    }
}

fn local_at(next: u32, line: &WrittenLine) -> Option<u32>
    ensures { result ≡ local_at next line.now }
{
    if is_defined(line) { Some(next) } else { None }
}

fn behind_line(next: u32, line: &WrittenLine) -> Result<u32, ResolveError>
    ensures { ResolvesTo (λ n. n) result (Ok (behind_line next line.now)) }
{
    if is_defined(line) {
        after(next)
    } else {
        Ok(next)
    }
}

/// One more line of a body.
fn place(body: &mut Body, local: Option<u32>, instr: Instr) -> Result<(), ResolveError>
    ensures { ResolvesTo (λ _. body.new) result (Ok (placed body.old (record { local = local; instr = instr }))) }
{
    if body.lines.len() != 0 {
        body.lines.push(Line { local, instr })?;
        return Ok(());
    }
    match (local, instr) {
        (Some(local), Instr::Phi { reg, incoming }) => {
            body.phis.push(Phi {
                local,
                reg,
                incoming,
            })?;
            Ok(())
        }
        (local, instr) => {
            body.lines.push(Line { local, instr })?;
            Ok(())
        }
    }
}

/// Resolves one more line of a body, which takes this number, where it takes one.
fn line_into<'t>(
    alloc: Global,
    types: &Types<'t>,
    locals: &Locals<'t>,
    number: u32,
    line: &'t WrittenLine,
    body: &mut Body,
) -> Result<(), ResolveError>
    ensures { ResolvesTo (λ _. body.new) result (line_onto types.now locals.now number line.now body.old) }
{
    let made = instr_in(alloc, types, locals, &line.instr)?;
    place(body, local_at(number, line), made)
}

/// The phis and the lines of a block whose first line takes this number, where it takes one.
pub fn body_in<'t>(
    alloc: Global,
    types: &Types<'t>,
    locals: &Locals<'t>,
    first: u32,
    lines: &'t [WrittenLine],
) -> Result<Body, ResolveError>
    ensures { ResolvesTo (λ b. b) result (body_in types.now locals.now first lines.now) }
{
    let mut body = Body {
        phis: Rows::new(alloc),
        lines: Rows::new(alloc),
    };
    let mut next = first;
    'each: for line in lines {
        line_into(alloc, types, locals, next, line, &mut body)?;
        next = behind_line(next, line)?;
    }
    Ok(body)
}

/// The number behind these lines, the first of which takes this number, where it takes one.
pub fn behind_lines(first: u32, lines: &[WrittenLine]) -> Result<u32, ResolveError>
    ensures { ResolvesTo (λ n. n) result (Ok (behind_lines first lines.now)) }
{
    let mut next = first;
    'each: for line in lines {
        next = behind_line(next, line)?;
    }
    Ok(next)
}

/// The block of these lines and this end, under a number.
#[tactic(auto, unfolding(crate::specs::Blocks::block_of))]
pub fn block_of<'t>(
    alloc: Global,
    types: &Types<'t>,
    locals: &Locals<'t>,
    number: u32,
    lines: &'t [WrittenLine],
    end: &'t WrittenEnd,
) -> Result<Block, ResolveError>
    ensures { ResolvesTo (λ b. b) result (block_of types.now locals.now number lines.now end.now) }
{
    let first = after(number)?;
    let body = body_in(alloc, types, locals, first, lines)?;
    let end = end_in(alloc, types, locals, end)?;
    Ok(Block {
        number,
        phis: body.phis,
        lines: body.lines,
        end,
    })
}
