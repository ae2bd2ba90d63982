//! A reader's bytes up to a limit.
ghost use Rattle.std.specs.Prelude.{◌≡◌, ◌≤◌, ◌<◌, ◌^◌, length, IfOk, IfSome, IsErrOf};

use ir_tree::Text;
use std::alloc::Global;
use std::io::{ErrorKind, Read};

/// Why a reader's bytes weren't had.
#[derive(Clone, Copy, Debug, PartialEq, Eq)]
pub(crate) enum ReadEnd {
    /// A read failed.
    Fault,
    /// There are more bytes than the limit.
    TooLong,
    /// Memory ran out.
    NoMemory,
}

/// All that a reader gives, if that is at most `limit` bytes. It reads `limit + 1` bytes at most.
pub(crate) fn read_all<T: Read + Drop>(
    alloc: Global,
    reader: T,
    limit: u32,
) -> Result<Text, ReadEnd>
    ensures short { IfOk result (λ text. length text ≤ limit) }
    ensures all { IfOk result (λ text. IfSome (T.remaining reader) (λ bytes. text ≡ bytes)) }
    ensures long { IsErrOf result ReadEnd.TooLong → IfSome (T.remaining reader) (λ bytes. limit < length bytes) }
{
    let mut bytes = Vec::new(alloc);
    let mut front = reader.take(u64::from(limit) + 1);
    if let Err(error) = front.read_to_end(&mut bytes) {
        return Err(match error.kind() {
            ErrorKind::OutOfMemory => ReadEnd::NoMemory,
            _ => ReadEnd::Fault,
        });
    }
    if bytes.len() > limit as usize {
        return Err(ReadEnd::TooLong);
    }
    Ok(Text::of(bytes))
}
