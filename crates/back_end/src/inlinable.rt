//! Which functions may be inlined.
ghost use Rattle.std.specs.Prelude.{◌≡◌, ◌+◌, ◌<◌, nat_le, MatchOption, option_copied};
ghost use Rattle.std.specs.List.{list_any};
ghost use Rattle.inline_site.specs.Sites.{counted_in};
ghost use Rattle.ir_meaning.specs.Program.{counted};
ghost use Rattle.back_end.specs.Inlinable.{callee_of, calls, has_name, may_inline};

use ir_tree::{Block, Function, Instr, Line, Operand, Symbol};

/// The function that an instruction calls directly, whatever the type that is written.
pub(crate) fn callee_of(instr: &Instr) -> Option<&Symbol>
    ensures { option_copied result ≡ callee_of instr.entry.now }
{
    match instr {
        Instr::Call {
            callee: Operand::Symbol { symbol, offset },
            ..
        } if *offset == 0 => Some(symbol),
        _ => None,
    }
}

/// Whether an instruction is a direct call of a function of this name.
fn is_call(name: &[u8], instr: &Instr) -> bool
    ensures { result ≡ has_name name.now (callee_of instr.now) }
{
    match callee_of(instr) {
        Some(symbol) => symbol.name.equals(name),
        None => false,
    }
}

fn calls_in(name: &[u8], lines: &[Line]) -> bool
    ensures { result ≡ list_any (λ l. has_name name.now (callee_of l.instr)) lines.now }
{
    for line in lines {
        if is_call(name, &line.instr) {
            return true;
        }
    }
    false
}

/// Whether a direct call of a function of this name is among the instructions.
fn calls(name: &[u8], blocks: &[Block]) -> bool
    ensures { result ≡ calls name.now blocks.now }
{
    for block in blocks {
        if calls_in(name, block.lines.as_slice()) {
            return true;
        }
    }
    false
}

/// What is left of this number behind the phis, instructions and the terminator of a block; none where these are more.
fn left_behind(block: &Block, most: usize) -> Option<usize>
    ensures { MatchOption result (most < counted block.now) (λ left. counted block.now + left ≡ most) }
{
    let behind_phis = most.checked_sub(block.phis.len())?;
    let behind_lines = behind_phis.checked_sub(block.lines.len())?;
    behind_lines.checked_sub(1)
}

/// Whether the phis, instructions and terminators of these blocks are no more than this number.
pub(crate) fn is_within(blocks: &[Block], most: usize) -> bool
    ensures { result ≡ nat_le (counted_in blocks.now) most }
{
    let mut left = most;
    for block in blocks {
        match left_behind(block, left) {
            Some(rest) => left = rest,
            None => return false,
        }
    }
    true
}

/// Whether the body of this function may be inlined where calls of it stand.
pub(crate) fn may_inline(f: &Function, limit: u32) -> bool
    ensures { result ≡ may_inline limit f.now }
{
    let blocks = f.blocks.as_slice();
    blocks.len() != 0
        && f.linkage.defines()
        && !f.linkage.is_replaceable()
        && !f.noinline
        && !f.optnone
        && !calls(f.symbol.name.as_slice(), blocks)
        && is_within(blocks, limit as usize)
}
