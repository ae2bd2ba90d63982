//! Rows whose operand depends on a condition.
ghost use Rattle.std.specs.Prelude.{◌≡◌};
ghost use Rattle.ir_meaning.specs.Table.{first as or_next, truth, when};
ghost use Rattle.fold_rules.specs.Folding.{operand_of, row_of};

use crate::folded::Folded;
use ir_tree::Operand;

/// An operand, where a condition holds.
pub(crate) fn when<'a>(holds: bool, operand: &'a Operand) -> Option<Folded<'a>>
    ensures { row_of result ≡ when holds operand.now }
{
    if holds {
        Some(Folded::Same(operand))
    } else {
        None
    }
}

/// The first operand where its condition holds, else the second where that one's does.
pub(crate) fn either<'a>(
    first: bool,
    left: &'a Operand,
    second: bool,
    right: &'a Operand,
) -> Option<Folded<'a>>
    ensures { row_of result ≡ or_next (when first left.now) (when second right.now) }
{
    if first {
        Some(Folded::Same(left))
    } else {
        when(second, right)
    }
}

/// A number of one bit.
pub(crate) fn truth<'a>(holds: bool) -> Folded<'a>
    ensures { operand_of result ≡ truth holds }
{
    Folded::Number {
        width: 1,
        bits: u64::from(holds),
    }
}
