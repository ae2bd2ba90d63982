//! Whether all terminators stay.
ghost use Rattle.std.specs.Prelude.{◌≡◌};
ghost use Rattle.branch_simplify.specs.Staying.{ends_stay};

use crate::decide::decided;
use ir_tree::Block;

/// Whether no terminator of these blocks is decided.
pub(crate) fn ends_stay(blocks: &[Block]) -> bool
    ensures { result ≡ ends_stay blocks.now }
{
    for block in blocks {
        if decided(&block.end).is_some() {
            return false;
        }
    }
    true
}
