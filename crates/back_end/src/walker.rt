//! The inline walk.
ghost use Rattle.std.specs.Prelude.{◌≡◌, ◌≢◌, ◌+◌, false, [], ◌∷◌, List, IfOk, IfSome, OnOk, Option, length, ℕ};
ghost use Rattle.ir_tree.specs.Rules.{Sound};
ghost use Rattle.ir_tree.specs.declared.block.Block.{Block};
ghost use Rattle.ir_tree.specs.declared.block.Terminator.{Terminator};
ghost use Rattle.ir_tree.specs.declared.function.Function.{Function};
ghost use Rattle.ir_tree.specs.declared.instr.Line.{Line};
ghost use Rattle.inline_site.specs.Callers.{Inlines, counted_done};
ghost use Rattle.inline_site.specs.Sites.{IsCallOf, counted_in};
ghost use Rattle.ir_meaning.specs.Program.{counted};
ghost use Rattle.back_end.specs.Inlinable.{AreSound, count};
ghost use Rattle.back_end.specs.Walk.{IsWalk};
ghost use Rattle.back_end.specs.Walking.{IsAhead, IsBegun, bodies_in};

use crate::bodies::Bodies;
use crate::calls::{Call, any_taken, call_now};
use crate::laws::walk_is_better;
use inline_site::{Caller, Open};
use ir_tree::{Block, Function, Line, Symbol};
use std::alloc::{AllocError, Global};

/// This number, and how many phis, instructions and terminators the block has.
fn count_behind(block: &Block, count: usize) -> Option<usize>
    ensures { IfSome result (λ n. n ≡ count + counted block.now) }
{
    let behind_phis = count.checked_add(block.phis.len())?;
    let behind_lines = behind_phis.checked_add(block.lines.len())?;
    behind_lines.checked_add(1)
}

/// How many phis, instructions and terminators these blocks have.
fn count_of(blocks: &[Block]) -> Result<usize, AllocError>
    ensures { IfOk result (λ n. n ≡ counted_in blocks.now) }
{
    let mut count: usize = 0;
    for block in blocks {
        let Some(next) = count_behind(block, count) else {
            return Err(AllocError);
        };
        count = next;
    }
    Ok(count)
}

/// The sum of these, refused where it passes 64 bits.
fn sum(count: usize, callee: usize, phis: usize) -> Result<usize, AllocError>
    ensures { IfOk result (λ n. n ≡ count + callee + phis) }
{
    let Some(more) = count.checked_add(callee) else {
        return Err(AllocError);
    };
    match more.checked_add(phis) {
        Some(all) => Ok(all),
        None => Err(AllocError),
    }
}

/// A function while it is walked over, and how many phis, instructions and terminators it has now.
#[derive(Drop)]
struct Walker {
    caller: Caller,
    count: usize,
}

impl Walker {
    fn of(alloc: Global, f: &Function) -> Result<Walker, AllocError>
        ensures { IfOk result (λ w. (bodies : List ℕ → Option Function) → IsAhead bodies f.now w f.now.blocks) }
    {
        let count = count_of(f.blocks.as_slice())?;
        let caller = Caller::of(alloc, f);
        Ok(Walker { caller, count })
    }

    /// Inlines the callee at a call that stands next.
    fn inline(
        &mut self,
        alloc: Global,
        block: &mut Open,
        line: &Line,
        call: Call<'_, '_>,
    ) -> Result<(), AllocError>
        requires some { call.callee.now.blocks ≢ [] }
        requires call { IsCallOf call.callee.now line.now.instr call.arguments.now }
        requires sound { Sound call.callee.now }
        ensures step { OnOk result ((f : Function) (lines : List Line) (end : Terminator) (ahead : List Block) → Inlines f self.old.caller self.new.caller block.old block.new line.now call.entry.callee.now lines end ahead) }
        ensures count { OnOk result (self.new.count ≡ self.old.count + count call.entry.callee.now + length block.new.phis) }
        ensures done { OnOk result (counted_done self.new.caller ≡ counted_done self.old.caller + (length block.old.phis + length block.old.lines + 1) + count call.entry.callee.now) }
        ensures lines { OnOk result (block.new.lines ≡ []) }
    {
        let added = count_of(call.callee.blocks.as_slice())?;
        self.caller
            .inline(alloc, block, line, call.arguments, call.callee)?;
        let count = sum(self.count, added, block.phis().len())?;
        self.count = count;
        Ok(())
    }

    /// The next instruction takes a body, or stays.
    fn pass_line(
        &mut self,
        alloc: Global,
        bodies: &Bodies<'_>,
        symbol: &Symbol,
        block: &mut Open,
        line: &Line,
    ) -> Result<(), AllocError>
        requires { AreSound (bodies_in bodies.now) }
        ensures { OnOk result ((f : Function) (lines : List Line) (end : Terminator) (ahead : List Block) → f.symbol ≡ symbol.now → IsBegun (bodies_in bodies.now) f self.old block.old (line.now ∷ lines) end ahead → IsBegun (bodies_in bodies.now) f self.new block.new lines end ahead) }
    {
        match call_now(bodies, symbol, self.count, &line.instr) {
            Some(call) => self.inline(alloc, block, line, call)?,
            None => block.push(alloc, line)?,
        }
        Ok(())
    }

    /// The instructions of a block take bodies, or stay.
    fn pass_lines(
        &mut self,
        alloc: Global,
        bodies: &Bodies<'_>,
        symbol: &Symbol,
        block: &mut Open,
        lines: &[Line],
    ) -> Result<(), AllocError>
        requires { AreSound (bodies_in bodies.now) }
        ensures { OnOk result ((f : Function) (end : Terminator) (ahead : List Block) → f.symbol ≡ symbol.now → IsBegun (bodies_in bodies.now) f self.old block.old lines.now end ahead → IsBegun (bodies_in bodies.now) f self.new block.new [] end ahead) }
    {
        for line in lines {
            self.pass_line(alloc, bodies, symbol, block, line)?;
        }
        Ok(())
    }

    /// The next block's instructions take bodies, or stay.
    fn pass(
        &mut self,
        alloc: Global,
        bodies: &Bodies<'_>,
        symbol: &Symbol,
        block: &Block,
    ) -> Result<(), AllocError>
        requires { AreSound (bodies_in bodies.now) }
        ensures { OnOk result ((f : Function) (ahead : List Block) → f.symbol ≡ symbol.now → IsAhead (bodies_in bodies.now) f self.old (block.now ∷ ahead) → IsAhead (bodies_in bodies.now) f self.new ahead) }
    {
        let mut begun = Open::of(alloc, block)?;
        self.pass_lines(alloc, bodies, symbol, &mut begun, block.lines.as_slice())?;
        self.caller.end(alloc, begun, &block.end)?;
        Ok(())
    }
}

/// The walk over a sound function: the first call that takes a body takes it, and the walk goes on behind the body, until no
/// call takes one. Every body is as it was read.
///
/// Beside want of memory, functions are refused whose numbers together pass 32 bits.
pub fn walk(alloc: Global, bodies: &Bodies<'_>, f: &Function) -> Result<Function, AllocError>
    requires sound { Sound f.now }
    requires bodies { AreSound (bodies_in bodies.now) }
    ensures walk { IfOk result (λ g. IsWalk (bodies_in bodies.now) f.now g) }
    ensures sound { IfOk result (λ g. Sound g) }
{
    walk_is_better();
    let mut walker = Walker::of(alloc, f)?;
    for block in f.blocks.as_slice() {
        walker.pass(alloc, bodies, &f.symbol, block)?;
    }
    let g = walker.caller.finish(alloc, f)?;
    Ok(g)
}

/// The walk over a sound function that is given up, and whether that may be another one: where no call takes a body it is the
/// function itself.
pub(crate) fn into_walked(
    alloc: Global,
    bodies: &Bodies<'_>,
    f: Function,
) -> Result<(Function, bool), AllocError>
    requires sound { Sound f }
    requires bodies { AreSound (bodies_in bodies.now) }
    ensures walk { IfOk result (λ walked. IsWalk (bodies_in bodies.now) f walked.0) }
    ensures sound { IfOk result (λ walked. Sound walked.0) }
    ensures same { IfOk result (λ walked. walked.1 ≡ false → walked.0 ≡ f) }
{
    let count = count_of(f.blocks.as_slice())?;
    let taken = any_taken(bodies, &f.symbol, count, f.blocks.as_slice());
    if !taken {
        return Ok((f, false));
    }
    let g = walk(alloc, bodies, &f)?;
    Ok((g, true))
}
