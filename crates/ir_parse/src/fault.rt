//! Why bytes are read as no module.
ghost use Rattle.std.specs.Prelude.{◌≡◌};
ghost use Rattle.ir_parse.specs.Kinds.{name_fault};

use ir_parse_names::NameFault;
use ir_tree::{Failure, FaultKind};

/// What is wrong, and the line of the token at which it is found, counted from 1; at the end of the text one more than its line
/// feeds.
#[derive(Drop)]
pub struct ReadFault {
    pub line: u32,
    pub kind: FaultKind,
}

/// Why bytes could not be read.
pub type ReadError = Failure<ReadFault>;

/// The kind of a fault of names.
pub fn name_fault(kind: NameFault) -> FaultKind
    ensures { result ≡ name_fault kind }
{
    match kind {
        NameFault::Twice => FaultKind::Twice,
        NameFault::Unknown => FaultKind::Unknown,
        NameFault::Limit => FaultKind::Limit,
        NameFault::Index => FaultKind::Index,
    }
}
