//! The rule table.
ghost use Rattle.std.specs.Prelude.{◌≡◌};
ghost use Rattle.ir_meaning.specs.Table.{rule};
ghost use Rattle.fold_rules.specs.Folding.{row_of};
ghost use Rattle.fold_rules.specs.Widths.{HasWidths};

use crate::address::address_rule;
use crate::binary::binary_rule;
use crate::choice::{cast_rule, freeze_rule, select_rule};
use crate::comparison::comparison_rule;
use crate::folded::Folded;
use ir_tree::Instr;

/// The operand that may stand for what an instruction gives: that of the first row of the table that fits.
///
/// The widths of the instruction's types are 1 to 64 and its shape has a size, as in each formed function.
pub fn rule(instr: &Instr) -> Option<Folded<'_>>
    requires sized { HasWidths instr.now }
    ensures { row_of result ≡ rule instr.now }
{
    match instr {
        Instr::Binary {
            op,
            flags,
            width,
            left,
            right,
        } => binary_rule(*op, *flags, *width, left, right),
        Instr::Icmp {
            predicate,
            reg,
            left,
            right,
        } => comparison_rule(*predicate, *reg, left, right),
        Instr::Cast {
            op,
            from,
            value,
            to,
        } => cast_rule(*op, *from, *to, value),
        Instr::Select {
            condition,
            if_true,
            if_false,
        } => select_rule(condition, if_true, if_false),
        Instr::Freeze { reg, value } => freeze_rule(*reg, value),
        Instr::Address {
            shape,
            base,
            indices,
            ..
        } => address_rule(shape, base, indices.as_slice()),
        _ => None,
    }
}
