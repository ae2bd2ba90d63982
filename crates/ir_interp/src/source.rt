//! Where the value of an operand is found.

use ir_machine::Scalar;
use ir_tree::Reg;

/// A register by its number, or a value that is known before the run.
#[derive(Clone, Copy)]
pub enum Source {
    Register(u32),
    Known(Scalar),
}

/// A source with the type that its operand is read as.
#[derive(Clone, Copy)]
pub struct Typed {
    pub reg: Reg,
    pub source: Source,
}
