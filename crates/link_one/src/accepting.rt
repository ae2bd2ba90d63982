//! From bytes to sound modules.
ghost use Rattle.std.specs.Prelude.{IfErr, IfOk};
ghost use Rattle.ir_tree.specs.Failures.{IfFault};
ghost use Rattle.link_one.specs.Accepted.{Accepts, Refuses};

use ir_flow::AnalysedModule;
use ir_parse::{ReadError, parse};
use ir_tree::Failure;
use ir_verify::{VerifyError, verify};
use lto_fault::RefusalKind;
use std::alloc::Global;

/// The file is read as no sound module within the limits: on which line, counted from 1, and why.
#[derive(Drop)]
pub struct Unsound {
    pub line: u32,
    pub kind: RefusalKind,
}

/// Why a file isn't accepted.
pub type LinkError = Failure<Unsound>;

/// The sound module that the bytes are read as, with what verification found of its control flow.
///
/// Refused exactly where the bytes are read as no sound module within the limits, with the line and the kind of the first
/// fault. Beside it memory can be what is lacking.
pub fn accepted(alloc: Global, bytes: &[u8]) -> Result<AnalysedModule, LinkError>
    ensures found { IfOk result (λ m. Accepts bytes.now m) }
    ensures refused { IfErr result (λ e. IfFault e (λ why. Refuses bytes.now why.line why.kind)) }
{
    let parsed = match parse(alloc, bytes) {
        Ok(parsed) => parsed,
        Err(ReadError::NoMemory) => return Err(LinkError::NoMemory),
        Err(ReadError::Fault(fault)) => {
            return Err(LinkError::Fault(Unsound {
                line: fault.line,
                kind: RefusalKind::Unread(fault.kind),
            }));
        }
    };
    match verify(alloc, parsed) {
        Ok(verified) => Ok(verified),
        Err(VerifyError::NoMemory) => Err(LinkError::NoMemory),
        Err(VerifyError::Fault(fault)) => Err(LinkError::Fault(Unsound {
            line: fault.line,
            kind: RefusalKind::Unsound(fault.kind),
        })),
    }
}
