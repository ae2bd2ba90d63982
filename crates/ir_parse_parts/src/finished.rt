//! What a reader that can't fail any more ends with.
//!
//! The type of what was read is a parameter, so that what is proved of the end of a reader isn't
//! proved of each kind of instruction or item.

ghost use Rattle.std.specs.Prelude.{◌≡◌, Ok};

use crate::ReaderError;

/// What was read.
pub fn done<T>(value: T) -> Result<T, ReaderError>
    ensures { result ≡ Ok value }
{
    Ok(value)
}
