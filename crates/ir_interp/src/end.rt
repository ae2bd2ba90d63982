//! How a run ended, and why it was given up.

use crate::StepPlace;
use ir_machine::Scalar;
use ir_tree::Cause;

/// How a run ended.
#[derive(Clone, Copy)]
pub enum RunEnd {
    /// The function in which it began returned.
    Returned(Option<Scalar>),
    /// Undefined behaviour, why and where.
    Undefined(Cause, StepPlace),
    /// A read of a byte that was never written, and where.
    Uninit(StepPlace),
    /// It was still running behind the last step that was allowed.
    OutOfSteps,
}

/// Why a run was given up: the input or the output failed, and its count of faults rose in the call, or
/// memory was refused.
#[derive(Clone, Copy, PartialEq, Eq)]
pub enum RunFault {
    In,
    Out,
    NoMemory,
}
