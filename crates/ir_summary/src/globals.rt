//! What a global value refers to.
ghost use Rattle.std.specs.Prelude.{◌≡◌, IfOk};
ghost use Rattle.ir_summary.specs.Once.{texts};
ghost use Rattle.ir_summary.specs.References.{global_names};

use crate::bodies::body_names;
use crate::initials::initial_names;
use ir_tree::GlobalValue;
use std::alloc::{AllocError, Global};

/// All names that a body or an initialiser refers to, as often as it does, in the order of the text. A declaration refers to none.
pub fn references<'a>(alloc: Global, global: &'a GlobalValue) -> Result<Vec<&'a [u8]>, AllocError>
    ensures { IfOk result (λ names. texts names.items ≡ global_names global.entry.now) }
{
    match global {
        GlobalValue::Variable(variable) => initial_names(alloc, variable),
        GlobalValue::Function(function) => body_names(alloc, function),
    }
}
