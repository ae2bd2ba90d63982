//! What becomes of the returns of a copy.
ghost use Rattle.std.specs.Prelude.{◌≡◌, ◌↔◌, false, [], ◌++◌, map, IfOk, OnOk};
ghost use Rattle.inline_site.specs.Callers.{lost_of};
ghost use Rattle.inline_site.specs.Inlined.{end_leading, leading_to, result_phis, return_entries};

use ir_tree::{Block, Duplicate, Incoming, Phi, Reg, Rows, Terminator};
use std::alloc::{AllocError, Global};

/// The terminator, or a jump to the block behind the call in the place of a return.
fn end_leading(alloc: Global, behind: u32, end: &Terminator) -> Result<Terminator, AllocError>
    ensures { IfOk result (λ e. e ≡ end_leading behind end.now) }
{
    match end {
        Terminator::Return(_) => Ok(Terminator::Jump(behind)),
        _ => end.duplicate(alloc),
    }
}

fn leading_to(alloc: Global, behind: u32, block: &Block) -> Result<Block, AllocError>
    ensures { IfOk result (λ b. b ≡ leading_to behind block.now) }
{
    let phis = block.phis.duplicate(alloc)?;
    let lines = block.lines.duplicate(alloc)?;
    let end = end_leading(alloc, behind, &block.end)?;
    Ok(Block {
        number: block.number,
        phis,
        lines,
        end,
    })
}

/// Adds these blocks with their returns leading to the block behind the call.
pub(crate) fn push_leading(
    alloc: Global,
    blocks: &mut Vec<Block>,
    copy: &[Block],
    behind: u32,
) -> Result<(), AllocError>
    ensures { OnOk result (blocks.new.items ≡ blocks.old.items ++ map (leading_to behind) copy.now) }
{
    for block in copy {
        let block = leading_to(alloc, behind, block)?;
        blocks.push(block)?;
    }
    Ok(())
}

/// One entry for each return of a value, in the order of the blocks.
pub(crate) fn return_entries(alloc: Global, copy: &[Block]) -> Result<Rows<Incoming>, AllocError>
    ensures { IfOk result (λ rows. rows ≡ return_entries copy.now) }
{
    let mut entries = Rows::new(alloc);
    for block in copy {
        if let Terminator::Return(Some(value)) = &block.end {
            let value = value.operand.duplicate(alloc)?;
            entries.push(Incoming {
                from: block.number,
                value,
            })?;
        }
    }
    Ok(entries)
}

/// Whether a block returns a value.
fn returns_value(copy: &[Block]) -> bool
    ensures { result ≡ false ↔ return_entries copy.now ≡ [] }
{
    for block in copy {
        if let Terminator::Return(Some(_)) = &block.end {
            return true;
        }
    }
    false
}

/// A result that no block of the copy returns.
pub(crate) fn lost_of(
    local: Option<u32>,
    returned: Option<Reg>,
    copy: &[Block],
) -> Option<(u32, Reg)>
    ensures { result ≡ lost_of local returned (return_entries copy.now) }
{
    match (local, returned) {
        (Some(local), Some(reg)) => {
            if returns_value(copy) {
                None
            } else {
                Some((local, reg))
            }
        }
        _ => None,
    }
}

/// The call's result as a phi of these entries; none without a result or without entries.
pub(crate) fn result_phis(
    alloc: Global,
    local: Option<u32>,
    returned: Option<Reg>,
    incoming: Rows<Incoming>,
) -> Result<Rows<Phi>, AllocError>
    ensures { IfOk result (λ rows. rows ≡ result_phis local returned incoming) }
{
    let mut phis = Rows::new(alloc);
    if let (Some(local), Some(reg)) = (local, returned) {
        if incoming.len() != 0 {
            phis.push(Phi {
                local,
                reg,
                incoming,
            })?;
        }
    }
    Ok(phis)
}
