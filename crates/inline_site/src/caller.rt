//! A function that calls are inlined into, block by block.
ghost use Rattle.std.specs.Prelude.{◌≡◌, ◌≢◌, ◌+◌, List, [], ◌∷◌, ◌++◌, map, length, option_to_list, IfOk, IfSome, OnOk};
ghost use Rattle.ir_meaning.specs.Program.{counted};
ghost use Rattle.ir_tree.specs.Rules.{Sound};
ghost use Rattle.ir_tree.specs.declared.block.Block.{Block};
ghost use Rattle.ir_tree.specs.declared.block.Terminator.{Terminator};
ghost use Rattle.ir_tree.specs.declared.block.Terminator.TheVariants.{Jump};
ghost use Rattle.ir_tree.specs.declared.function.Function.{Function};
ghost use Rattle.ir_tree.specs.declared.instr.Line.{Line};
ghost use Rattle.inline_site.specs.Callers.{Inlines, IsReady, behind_open, counted_done, ended, lost_of, made_of};
ghost use Rattle.inline_site.specs.Inlined.{entry_of, leading_to, return_entries};
ghost use Rattle.inline_site.specs.Sites.{IsCallOf, counted_in};

use crate::copy::copied;
use crate::free::past_all;
use crate::late::Late;
use crate::names::Halves;
use crate::open::Open;
use crate::returns::{lost_of, push_leading, result_phis, return_entries};
use ir_tree::{Argument, Block, Duplicate, Function, Line, Reg, Rows, Terminator};
use std::alloc::{AllocError, Global};
use std::mem::replace;

/// A function that calls are inlined into: the blocks that are done, the first number that is free, and what is put off until
/// all are done.
#[derive(Drop)]
pub struct Caller {
    done: Vec<Block>,
    free: u64,
    late: Late,
}

fn entry_of(copy: &[Block]) -> u32
    ensures { result ≡ entry_of copy.now }
{
    match copy {
        [entry, ..] => entry.number,
        [] => 0,
    }
}

/// The blocks before the last one, and the last one's number.
fn without_last(blocks: &[Block]) -> Option<(&[Block], u32)>
    ensures copy { (front : List Block) (last : Block) → blocks.entry.now ≡ front ++ last ∷ [] → IfSome result (λ r. r.0.now ≡ front) }
    ensures number { (front : List Block) (last : Block) → blocks.entry.now ≡ front ++ last ∷ [] → IfSome result (λ r. r.1 ≡ last.number) }
{
    match blocks {
        [copy @ .., last] => Some((copy, last.number)),
        [] => None,
    }
}

/// The block behind a call of this result, up to its phis.
fn behind_open(
    alloc: Global,
    local: Option<u32>,
    returned: Option<Reg>,
    copy: &[Block],
    behind: u32,
) -> Result<Open, AllocError>
    ensures { IfOk result (λ o. o ≡ behind_open local returned behind copy.now) }
{
    let entries = return_entries(alloc, copy)?;
    let phis = result_phis(alloc, local, returned, entries)?;
    Ok(Open {
        number: behind,
        phis,
        lines: Rows::new(alloc),
    })
}

impl Caller {
    /// Before the first block of the function.
    pub fn of(alloc: Global, f: &Function) -> Caller
        ensures function { made_of f.now result f.now.blocks ≡ f.now }
        ensures ready { IsReady f.now result }
        ensures count { counted_done result ≡ 0 }
    {
        let free = past_all(f.params.as_slice(), f.blocks.as_slice());
        Caller {
            done: Vec::new(alloc),
            free,
            late: Late::new(alloc),
        }
    }

    /// Ends a block.
    pub fn end(&mut self, alloc: Global, current: Open, end: &Terminator) -> Result<(), AllocError>
        ensures function { OnOk result ((f : Function) (ahead : List Block) → made_of f self.new ahead ≡ made_of f self.old (ended current end.now ∷ ahead)) }
        ensures ready { OnOk result ((g : Function) → IsReady g self.old → IsReady g self.new) }
        ensures count { OnOk result (counted_done self.new ≡ counted_done self.old + counted (ended current end.now)) }
    {
        let end = end.duplicate(alloc)?;
        self.done.push(current.ended(end))?;
        Ok(())
    }

    /// Adds copies of these blocks.
    pub(crate) fn pass(&mut self, alloc: Global, blocks: &[Block]) -> Result<(), AllocError>
        ensures done { OnOk result (self.new.done.items ≡ self.old.done.items ++ blocks.now) }
        ensures free { OnOk result (self.new.free ≡ self.old.free) }
        ensures late { OnOk result (self.new.late ≡ self.old.late) }
    {
        for block in blocks {
            let block = block.duplicate(alloc)?;
            self.done.push(block)?;
        }
        Ok(())
    }

    /// Puts the copy of a callee behind the open block, which leads to it, and opens the block behind the call.
    fn splice(
        &mut self,
        current: &mut Open,
        alloc: Global,
        after: Open,
        copy: &[Block],
    ) -> Result<(), AllocError>
        ensures done { OnOk result (self.new.done.items ≡ self.old.done.items ++ ended current.old (Jump (entry_of copy.now)) ∷ map (leading_to after.number) copy.now) }
        ensures current { OnOk result (current.new ≡ after) }
        ensures late { OnOk result (self.new.late ≡ self.old.late) }
    {
        let behind = after.number;
        let before = replace(current, after);
        self.done
            .push(before.ended(Terminator::Jump(entry_of(copy))))?;
        push_leading(alloc, &mut self.done, copy, behind)
    }

    /// Inlines the copy of a callee at a call of this result.
    fn put(
        &mut self,
        alloc: Global,
        current: &mut Open,
        local: Option<u32>,
        returned: Option<Reg>,
        copy: &[Block],
        behind: u32,
    ) -> Result<(), AllocError>
        ensures done { OnOk result (self.new.done.items ≡ self.old.done.items ++ ended current.old (Jump (entry_of copy.now)) ∷ map (leading_to behind) copy.now) }
        ensures current { OnOk result (current.new ≡ behind_open local returned behind copy.now) }
        ensures halves { OnOk result (self.new.late.halves.items ≡ self.old.late.halves.items ++ record { block = current.old.number; behind = behind } ∷ []) }
        ensures lost { OnOk result (self.new.late.lost.items ≡ self.old.late.lost.items ++ option_to_list (lost_of local returned (return_entries copy.now))) }
        ensures free { OnOk result (self.new.free ≡ behind + 1) }
    {
        let after = behind_open(alloc, local, returned, copy, behind)?;
        let halves = Halves {
            block: current.number,
            behind,
        };
        self.splice(current, alloc, after, copy)?;
        self.late.push(halves, lost_of(local, returned, copy))?;
        self.free = behind as u64 + 1;
        Ok(())
    }

    /// Inlines the callee at a call of it, of its type, with these arguments, that stands next in the open block. What stands
    /// behind it is then next in the block behind the call, which is open.
    ///
    /// Beside want of memory, functions are refused whose numbers together pass 32 bits.
    pub fn inline(
        &mut self,
        alloc: Global,
        current: &mut Open,
        call: &Line,
        arguments: &[Argument],
        callee: &Function,
    ) -> Result<(), AllocError>
        requires some { callee.now.blocks ≢ [] }
        requires call { IsCallOf callee.now call.now.instr arguments.now }
        ensures inlined { OnOk result ((f : Function) (lines : List Line) (end : Terminator) (ahead : List Block) → Sound callee.now → Inlines f self.old self.new current.old current.new call.now callee.now lines end ahead) }
        ensures count { OnOk result (Sound callee.now → counted_done self.new ≡ counted_done self.old + (length current.old.phis + length current.old.lines + 1) + counted_in callee.now.blocks) }
        ensures lines { OnOk result (current.new.lines ≡ []) }
    {
        if self.free > u32::MAX as u64 {
            return Err(AllocError);
        }
        let rows = copied(alloc, callee, arguments, self.free as u32)?;
        let Some((copy, behind)) = without_last(rows.as_slice()) else {
            return Err(AllocError);
        };
        self.put(alloc, current, call.local, callee.result, copy, behind)?;
        Ok(())
    }

    /// The function of which all blocks are done.
    pub fn finish(self, alloc: Global, f: &Function) -> Result<Function, AllocError>
        ensures { IfOk result (λ g. g ≡ made_of f.now self []) }
    {
        let Caller { done, late, .. } = self;
        late.done(alloc, f, done)
    }
}
