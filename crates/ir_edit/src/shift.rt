//! A number added to each number of a function.
ghost use Rattle.std.specs.Prelude.{◌≡◌, ℕ, ◌+◌, IfOk};
ghost use Rattle.ir_tree.specs.Edited.{operand_renamed, shifted};

use crate::edit::Edit;
use crate::walk::edited;
use ir_tree::{Duplicate, Function, Operand};
use std::alloc::{AllocError, Global};

/// What is added to each number.
#[derive(Drop)]
struct Shift {
    by: u32,
}

impl Edit for Shift {
    ghost number_of = { λ s x. x + s.by };

    ghost operand_of = { λ s. operand_renamed (λ x. x + s.by) };

    fn number(&self, old: u32) -> Result<u32, AllocError> {
        match old.checked_add(self.by) {
            Some(new) => Ok(new),
            None => Err(AllocError),
        }
    }

    fn operand(&self, alloc: Global, old: &Operand) -> Result<Operand, AllocError> {
        match old {
            Operand::Local(x) => {
                let x = self.number(*x)?;
                Ok(Operand::Local(x))
            }
            _ => old.duplicate(alloc),
        }
    }
}

/// The function with `by` added to the number of each local and each block, where it is defined and
/// where it is used.
///
/// Beside want of memory, a sum that passes 32 bits is refused.
pub fn shift_numbers(alloc: Global, f: &Function, by: u32) -> Result<Function, AllocError>
    ensures { IfOk result (λ g. g ≡ shifted by f.now) }
{
    let shift = Shift { by };
    let g = edited(alloc, &shift, f)?;
    Ok(g)
}
