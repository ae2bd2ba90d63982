//! Calls that take bodies.
ghost use Rattle.std.specs.Prelude.{◌≡◌, ◌≢◌, ◌↔◌, ◌≤◌, All, [], false, IfSome, IsTrue, MatchOption};
ghost use Rattle.ir_tree.specs.declared.function.Function.{Function};
ghost use Rattle.inline_site.specs.Sites.{IsCallOf};
ghost use Rattle.back_end.specs.Inlinable.{count};
ghost use Rattle.back_end.specs.Walk.{Takes};
ghost use Rattle.back_end.specs.Walking.{LineTakesNone, LinesTakeNone, TakesNone, TakesNow, bodies_in};

use crate::bodies::Bodies;
use crate::inlinable::{callee_of, is_within};
use inline_site::arguments_of;
use ir_tree::{Argument, Block, Function, Instr, Line, Symbol};

/// How many phis, instructions and terminators a function may have with the body that it takes.
const ROOM: usize = 20_000;

/// A call that takes a body: the callee, and the arguments.
#[derive(Clone, Copy)]
pub(crate) struct Call<'a, 'b> {
    pub(crate) callee: &'a Function,
    pub(crate) arguments: &'b [Argument],
}

/// Whether a function is another one than that of this symbol.
fn is_other(callee: &Function, symbol: &Symbol) -> bool
    ensures { IsTrue result ↔ (callee.now.symbol ≢ symbol.now) }
{
    callee.symbol != *symbol
}

/// Whether a function has a body, and there is room for it.
fn has_room(callee: &Function, room: usize) -> bool
    ensures { IsTrue result ↔ (callee.now.blocks ≢ []) × (count callee.now ≤ room) }
{
    let blocks = callee.blocks.as_slice();
    blocks.len() != 0 && is_within(blocks, room)
}

/// The call whose body the instruction takes, in a function of this symbol with so much room.
fn taken<'a, 'b>(
    bodies: &Bodies<'a>,
    symbol: &Symbol,
    room: usize,
    instr: &'b Instr,
) -> Option<Call<'a, 'b>>
    ensures takes { MatchOption result ((c : Function) → Takes (bodies_in bodies.now) symbol.now room instr.entry.now c → ⊥) (λ c. Takes (bodies_in bodies.now) symbol.now room instr.entry.now c.callee.now) }
    ensures call { IfSome result (λ c. IsCallOf c.callee.now instr.entry.now c.arguments.now) }
{
    let named = callee_of(instr)?;
    let callee = bodies.named(named.name.as_slice())?;
    if !is_other(callee, symbol) || !has_room(callee, room) {
        return None;
    }
    let arguments = arguments_of(callee, instr)?;
    Some(Call { callee, arguments })
}

/// The call whose body the instruction takes, in a function of this symbol that has so many phis, instructions and
/// terminators.
pub(crate) fn call_now<'a, 'b>(
    bodies: &Bodies<'a>,
    symbol: &Symbol,
    count: usize,
    instr: &'b Instr,
) -> Option<Call<'a, 'b>>
    ensures takes { MatchOption result (TakesNone (bodies_in bodies.now) symbol.now count instr.entry.now) (λ c. TakesNow (bodies_in bodies.now) symbol.now count instr.entry.now c.callee.now) }
    ensures call { IfSome result (λ c. IsCallOf c.callee.now instr.entry.now c.arguments.now) }
{
    let room = ROOM.checked_sub(count)?;
    taken(bodies, symbol, room, instr)
}

/// Whether a line takes a body.
fn line_taken(bodies: &Bodies<'_>, symbol: &Symbol, count: usize, line: &Line) -> bool
    ensures { result ≡ false → LineTakesNone (bodies_in bodies.now) symbol.now count line.now }
{
    match call_now(bodies, symbol, count, &line.instr) {
        Some(_) => true,
        None => false,
    }
}

/// Whether one of these lines takes a body.
fn lines_taken(bodies: &Bodies<'_>, symbol: &Symbol, count: usize, lines: &[Line]) -> bool
    ensures { result ≡ false → All (LineTakesNone (bodies_in bodies.now) symbol.now count) lines.now }
{
    for line in lines {
        if line_taken(bodies, symbol, count, line) {
            return true;
        }
    }
    false
}

/// Whether a line of these blocks takes a body.
pub(crate) fn any_taken(
    bodies: &Bodies<'_>,
    symbol: &Symbol,
    count: usize,
    blocks: &[Block],
) -> bool
    ensures { result ≡ false → All (LinesTakeNone (bodies_in bodies.now) symbol.now count) blocks.now }
{
    for block in blocks {
        if lines_taken(bodies, symbol, count, block.lines.as_slice()) {
            return true;
        }
    }
    false
}
