//! Why a call that can find a fault has no answer.
ghost use Rattle.std.specs.Prelude.{◌≡◌};
ghost use Rattle.ir_tree.specs.declared.failure.Failure.TheVariants.{NoMemory};

use std::alloc::{AllocError, AllocFailed};

/// Why a call has no answer: memory ran out, or what it was given has a fault.
#[derive(Drop)]
pub enum Failure<F> {
    NoMemory,
    Fault(F),
}

impl<F: Drop> From<AllocError> for Failure<F> {
    ghost from_gives = { λ _ e. e ≡ NoMemory };

    fn from(_e: AllocError) -> Failure<F> {
        Failure::NoMemory
    }
}

impl<F: Drop, T: Drop> From<AllocFailed<T>> for Failure<F> {
    ghost from_gives = { λ _ e. e ≡ NoMemory };

    fn from(_e: AllocFailed<T>) -> Failure<F> {
        Failure::NoMemory
    }
}
