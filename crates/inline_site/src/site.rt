//! The call at a place of a function.
ghost use Rattle.std.specs.Prelude.{◌≡◌, ◌↔◌, ◌<◌, List, Some, IsTrue, length, slice_get, MatchOption};
ghost use Rattle.ir_tree.specs.declared.block.Block.{Block};
ghost use Rattle.ir_tree.specs.declared.operand.Argument.{Argument};
ghost use Rattle.inline_site.specs.Copying.{site_of};
ghost use Rattle.ir_tree.specs.Types.{argument_types, param_types};
ghost use Rattle.inline_site.specs.Sites.{IsAt, IsCallOf, Site, StandsAt};

use ir_tree::{Argument, Block, Function, Instr, Line, Operand, Param, Reg};

/// An instruction between what stands before and behind it: blocks, and instructions of its own block.
#[derive(Clone, Copy)]
pub(crate) struct SiteParts<'a> {
    pub(crate) front: &'a [Block],
    pub(crate) block: &'a Block,
    pub(crate) back: &'a [Block],
    pub(crate) before: &'a [Line],
    pub(crate) call: &'a Line,
    pub(crate) after: &'a [Line],
}

/// The instruction of this place in its block, which stands at this place among the blocks.
fn parts(blocks: &[Block], block: usize, line: usize) -> SiteParts<'_>
    requires block { block < length blocks.now }
    requires line { (b : Block) → slice_get blocks.now block ≡ Some b → line < length b.lines }
    ensures { IsAt blocks.entry.now block line (site_of result) }
{
    let lines = blocks[block].lines.as_slice();
    SiteParts {
        front: &blocks[..block],
        block: &blocks[block],
        back: &blocks[block + 1..],
        before: &lines[..line],
        call: &lines[line],
        after: &lines[line + 1..],
    }
}

/// The instruction at this place, counted from 1 over phis, instructions and terminators; none where a phi, a terminator or
/// nothing stands there.
pub(crate) fn site_at(blocks: &[Block], place: u32) -> Option<SiteParts<'_>>
    ensures { MatchOption result ((s : Site) → StandsAt blocks.entry.now place s → ⊥) (λ s. StandsAt blocks.entry.now place (site_of s)) }
{
    if place == 0 {
        return None;
    }
    let mut left = place as usize;
    for block in 0..blocks.len() {
        let phis = blocks[block].phis.len();
        let lines = blocks[block].lines.len();
        if left <= phis {
            return None;
        }
        let behind_phis = left - phis;
        if behind_phis <= lines {
            return Some(parts(blocks, block, behind_phis - 1));
        }
        if behind_phis - lines == 1 {
            return None;
        }
        left = behind_phis - lines - 1;
    }
    None
}

fn is_same_type(left: Reg, right: Reg) -> bool
    ensures { IsTrue result ↔ (left ≡ right) }
{
    left == right
}

/// Whether the arguments have the parameters' types.
fn have_types(arguments: &[Argument], params: &[Param]) -> bool
    ensures { IsTrue result ↔ (argument_types arguments.now ≡ param_types params.now) }
{
    if arguments.len() != params.len() {
        return false;
    }
    for place in 0..params.len() {
        if !is_same_type(arguments[place].reg, params[place].reg) {
            return false;
        }
    }
    true
}

/// The arguments of a direct call of the callee, of its type; none where the instruction is no such call.
pub fn arguments_of<'a>(callee: &Function, instr: &'a Instr) -> Option<&'a [Argument]>
    ensures { MatchOption result ((arguments : List Argument) → IsCallOf callee.now instr.now arguments → ⊥) (λ arguments. IsCallOf callee.now instr.now arguments.now) }
{
    match instr {
        Instr::Call {
            result,
            callee: Operand::Symbol { symbol, offset },
            arguments,
        } => {
            let arguments = arguments.as_slice();
            let direct = *offset == 0 && *symbol == callee.symbol && *result == callee.result;
            if direct && have_types(arguments, callee.params.as_slice()) {
                Some(arguments)
            } else {
                None
            }
        }
        _ => None,
    }
}
