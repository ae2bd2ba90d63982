//! Uses of locals replaced by operands, all at once.
ghost use Rattle.std.specs.Prelude.{◌≡◌, ℕ, IfOk, option_map};
ghost use Rattle.ir_edit.specs.Substituted.{operand_replaced, replacement, substituted};
ghost use Rattle.ir_edit.specs.Replacements.{value_in};

use crate::edit::Edit;
use crate::walk::edited;
use ir_tree::{Duplicate, Function, Operand};
use std::alloc::{AllocError, Global};
use std::collections::BTreeMap;

/// What stands for locals.
#[derive(Drop)]
pub(crate) struct Replacements<'a> {
    values: BTreeMap<u32, &'a Operand>,
}

impl<'a> Replacements<'a> {
    /// The table of these pairs of a local and its operand.
    fn of(alloc: Global, pairs: &'a [(u32, Operand)]) -> Result<Self, AllocError>
        ensures { IfOk result (λ r. (x : ℕ) → value_in r x ≡ replacement pairs.now x) }
    {
        let mut values = BTreeMap::new(alloc);
        for pair in pairs {
            values.insert(pair.0, &pair.1)?;
        }
        Ok(Replacements { values })
    }
}

impl<'a> Edit for Replacements<'a> {
    ghost number_of = { λ r x. x };

    ghost operand_of = { λ r. operand_replaced (value_in r) };

    fn number(&self, old: u32) -> Result<u32, AllocError> {
        Ok(old)
    }

    fn operand(&self, alloc: Global, old: &Operand) -> Result<Operand, AllocError> {
        match old {
            Operand::Local(x) => match self.values.get(x) {
                Some(value) => value.duplicate(alloc),
                None => Ok(Operand::Local(*x)),
            },
            _ => old.duplicate(alloc),
        }
    }
}

/// The function with each use of a local that stands in the list replaced by its operand, all at once:
/// what is put in is not looked at again. Definitions stay.
///
/// Of a local that stands in the list twice, the later operand counts.
pub fn substitute(
    alloc: Global,
    f: &Function,
    replacements: &[(u32, Operand)],
) -> Result<Function, AllocError>
    ensures { IfOk result (λ g. g ≡ substituted replacements.now f.now) }
{
    let replacements = Replacements::of(alloc, replacements)?;
    let g = edited(alloc, &replacements, f)?;
    Ok(g)
}
