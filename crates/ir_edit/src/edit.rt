//! What an edit does to numbers and operands.
ghost use Rattle.std.specs.Prelude.{◌≡◌, ℕ, IfOk};
ghost use Rattle.ir_tree.specs.declared.operand.Operand.{Operand};

use ir_tree::Operand;
use std::alloc::{AllocError, Global};

/// A change of the numbers and the operands of a function, the same at every place. Crates above make their own edits by it.
pub trait Edit {
    /// The new number of a block, or of a local that is defined.
    ghost number_of: { Self → ℕ → ℕ };

    /// The operand that takes an operand's place.
    ghost operand_of: { Self → Operand → Operand };

    /// The new number of a block or of a local that is defined.
    ///
    /// Beside want of memory, a number is refused whose new one would pass 32 bits.
    fn number(&self, old: u32) -> Result<u32, AllocError>
        ensures { IfOk result (λ new. new ≡ number_of self.now old) };

    /// The operand that takes an operand's place.
    fn operand(&self, alloc: Global, old: &Operand) -> Result<Operand, AllocError>
        ensures { IfOk result (λ new. new ≡ operand_of self.now old.now) };
}
