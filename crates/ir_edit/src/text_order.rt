//! A function's locals and blocks numbered in the order of its text.
ghost use Rattle.std.specs.Prelude.{◌≡◌, IfOk};
ghost use Rattle.ir_tree.specs.Edited.{operand_renamed};
ghost use Rattle.ir_edit.specs.Numbered.{in_text_order};
ghost use Rattle.ir_edit.specs.Numberings.{number_in};

use crate::edit::Edit;
use crate::numbering::Numbering;
use crate::walk::edited;
use ir_tree::{Duplicate, Function, Operand};
use std::alloc::{AllocError, Global};

impl Edit for Numbering {
    ghost number_of = { number_in };

    ghost operand_of = { λ n. operand_renamed (number_in n) };

    fn number(&self, old: u32) -> Result<u32, AllocError> {
        self.new_number(old)
    }

    fn operand(&self, alloc: Global, old: &Operand) -> Result<Operand, AllocError> {
        match old {
            Operand::Local(x) => {
                let x = self.new_number(*x)?;
                Ok(Operand::Local(x))
            }
            _ => old.duplicate(alloc),
        }
    }
}

/// The function with its locals and blocks numbered from 0 in the order of its text: parameters, then
/// each block followed by its phis and results.
///
/// A local or a block that is used and not defined gets a number behind all of these. Beside want of
/// memory, a function is refused where a number would pass 32 bits.
pub fn renumber(alloc: Global, f: &Function) -> Result<Function, AllocError>
    ensures { IfOk result (λ g. g ≡ in_text_order f.now) }
{
    let new = Numbering::of_function(alloc, f)?;
    let g = edited(alloc, &new, f)?;
    Ok(g)
}
