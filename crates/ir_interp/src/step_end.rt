//! What a step came to.

use ir_machine::Scalar;
use ir_tree::Cause;

/// An instruction or terminator of a function: the function by the index of its symbol in the table, and
/// the number of the instruction, counted from 1 over phis, instructions and terminators in the order
/// of the text.
#[derive(Clone, Copy)]
pub struct StepPlace {
    pub function: u32,
    pub instruction: u64,
}

/// What a step came to.
#[derive(Clone, Copy)]
pub enum StepEnd {
    /// The run goes on; nothing was written.
    Going,
    /// The next step is a `getchar`, and nothing was given: nothing was done.
    Wants,
    /// The run goes on; `putchar` wrote a byte.
    Wrote(u8),
    /// The function in which the run began returned.
    Returned(Option<Scalar>),
    /// The run ends in undefined behaviour.
    Undefined(Cause, StepPlace),
    /// The run ends in a read of a byte that was never written.
    Uninit(StepPlace),
}
