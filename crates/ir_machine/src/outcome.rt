//! What an instruction computes.

use crate::scalar::Scalar;
use ir_tree::Cause;

/// A value, undefined behaviour, or a read of a byte that was never written.
#[derive(Clone, Copy, Debug)]
pub enum Outcome {
    Value(Scalar),
    Undefined(Cause),
    Uninit,
}
