//! What may stand for the value of an instruction.
ghost use Rattle.std.specs.Prelude.{◌≡◌, IfOk};
ghost use Rattle.fold_rules.specs.Folding.{operand_of};

use ir_tree::{Duplicate, Operand, Reg, Symbol};
use std::alloc::{AllocError, Global};

/// An operand that may stand for what an instruction gives: one that the instruction reads, a constant,
/// or an address of a symbol that it reads. Taking one takes no memory.
#[derive(Clone, Copy, Drop)]
pub enum Folded<'a> {
    /// An operand of the instruction.
    Same(&'a Operand),
    /// A number of `width` bits.
    Number { width: u8, bits: u64 },
    /// Poison of a type.
    Poison(Reg),
    /// A symbol of the instruction at another offset, in bytes modulo `2^64`.
    Address { symbol: &'a Symbol, offset: u64 },
}

impl<'a> Folded<'a> {
    /// The operand itself.
    pub fn operand(&self, alloc: Global) -> Result<Operand, AllocError>
        ensures { IfOk result (λ o. o ≡ operand_of self.now) }
    {
        match self {
            Folded::Same(operand) => operand.duplicate(alloc),
            Folded::Number { width, bits } => Ok(Operand::Number {
                width: *width,
                bits: *bits,
            }),
            Folded::Poison(reg) => Ok(Operand::Poison(*reg)),
            Folded::Address { symbol, offset } => {
                let symbol = symbol.duplicate(alloc)?;
                Ok(Operand::Symbol {
                    symbol,
                    offset: *offset,
                })
            }
        }
    }
}
