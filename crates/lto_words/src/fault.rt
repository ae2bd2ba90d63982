//! Why words gave no command.
ghost use Rattle.std.specs.Prelude.{◌≡◌};
ghost use Rattle.lto_words.specs.declared.fault.WordsError.TheVariants.{NoMemory};

use std::alloc::{AllocError, AllocFailed};

/// Why the words gave no command.
#[derive(Clone, Copy, Debug, PartialEq, Eq)]
pub enum WordsError {
    /// They are none of the program's commands.
    Usage,
    /// Memory ran out.
    NoMemory,
}

impl From<AllocError> for WordsError {
    ghost from_gives = { λ _ e. e ≡ NoMemory };

    fn from(_error: AllocError) -> WordsError {
        WordsError::NoMemory
    }
}

impl<T: Drop> From<AllocFailed<T>> for WordsError {
    ghost from_gives = { λ _ e. e ≡ NoMemory };

    fn from(_error: AllocFailed<T>) -> WordsError {
        WordsError::NoMemory
    }
}
