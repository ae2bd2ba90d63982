//! The answers of a command, and the status of each.
ghost use Rattle.std.specs.Prelude.{◌≡◌};
ghost use Rattle.lto_fault.specs.Statuses.{status_of};

use crate::kind::RefusalKind;
use ir_tree::{Cause, TargetLine, Text};

/// Any answer of a command but success. `file`, `first` and `second` are names of files as they were given; other names
/// are names of symbols without their sigil.
#[derive(Drop)]
pub enum Refusal {
    /// The words are no command.
    Usage,
    /// The file or stream couldn't be read.
    ReadFault {
        name: Text,
    },
    /// The file is read as no sound module within the limits. Lines count from 1; 0 stands for the whole file.
    Refused {
        file: Text,
        line: u64,
        kind: RefusalKind,
    },
    /// Two files are compiled for different targets.
    TargetClash {
        target: TargetLine,
        first: Text,
        second: Text,
    },
    /// Two files define the symbol as `external`.
    DuplicateSymbol {
        name: Text,
        first: Text,
        second: Text,
    },
    /// The symbol is a function in one file and a variable in another.
    KindClash {
        name: Text,
        function: Text,
        variable: Text,
    },
    /// The symbol is used in the file and defined in none.
    UndefinedSymbol {
        name: Text,
        file: Text,
    },
    /// The exported symbol is defined in no file.
    NoExport {
        name: Text,
    },
    /// Two symbols would have the name in the linked module.
    NameTaken {
        name: Text,
    },
    /// The arguments don't fit the parameters of the function that is to run.
    BadArguments {
        name: Text,
    },
    /// The file or stream couldn't be written.
    WriteFault {
        name: Text,
    },
    /// Memory ran out.
    NoMemory,
    /// The run reached undefined behaviour. Instructions, phis and terminators of the function count from 1.
    Undefined {
        function: Text,
        file: Text,
        instruction: u64,
        cause: Cause,
    },
    /// The run read an uninitialised byte.
    Uninit {
        function: Text,
        file: Text,
        instruction: u64,
    },
    /// The run hadn't ended after this many steps.
    OutOfSteps {
        steps: u64,
    },
}

/// The status that the process ends with: from 1 to 9, in the order of the answers' causes.
pub fn status(refusal: &Refusal) -> u8
    ensures { result ≡ status_of refusal.now }
{
    match refusal {
        Refusal::Usage => 1,
        Refusal::ReadFault { .. } => 2,
        Refusal::Refused { .. } => 3,
        Refusal::TargetClash { .. }
        | Refusal::DuplicateSymbol { .. }
        | Refusal::KindClash { .. }
        | Refusal::UndefinedSymbol { .. }
        | Refusal::NoExport { .. }
        | Refusal::NameTaken { .. }
        | Refusal::BadArguments { .. } => 4,
        Refusal::WriteFault { .. } => 5,
        Refusal::NoMemory => 6,
        Refusal::Undefined { .. } => 7,
        Refusal::Uninit { .. } => 8,
        Refusal::OutOfSteps { .. } => 9,
    }
}
