//! What is read one behind the other.
//!
//! The type of what is read first is a parameter, so that what is proved of it isn't proved of each
//! field of an initialiser.

ghost use Rattle.ir_parse_globals.specs.Beside.{IsBeside};

use ir_parse_parts::ReaderError;

/// A value, and what was read behind it.
pub fn beside<A: Drop, B: Drop>(
    first: A,
    read: Result<B, ReaderError>,
) -> Result<(A, B), ReaderError>
    ensures { IsBeside first read result }
{
    let second = read?;
    Ok((first, second))
}
