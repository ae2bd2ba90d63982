//! The least set of locals that effects read, closed under what the definitions of its locals read.
ghost use Rattle.std.specs.Prelude.{nat_eq, IfOk};
ghost use Rattle.std.specs.HashSet.{contains};
ghost use Rattle.dead_code.specs.Closure.{IsLeastUnder};
ghost use Rattle.dead_code.specs.Readers.{read_for};

use crate::readers::Readers;
use std::alloc::{AllocError, Global};
use std::collections::HashSet;

/// Each local that is taken from the work list is kept, and brings what its definitions read: once,
/// since that leaves the table then. So each use is looked at once.
pub(crate) fn kept(alloc: Global, readers: Readers) -> Result<HashSet<u32>, AllocError>
    ensures { IfOk result (λ kept. IsLeastUnder readers.by_effects.items (read_for readers) (contains nat_eq kept)) }
{
    let Readers {
        by_effects: mut work,
        mut by_definition,
    } = readers;
    let mut kept = HashSet::new(alloc);
    while let Some(local) = work.pop() {
        kept.insert(local)?;
        let mut read = by_definition.take(alloc, local);
        work.append(&mut read)?;
    }
    Ok(kept)
}
