//! The symbols that are reached from the exported names.
ghost use Rattle.std.specs.Prelude.{◌≡◌, IfOk};
ghost use Rattle.combined_index.specs.Liveness.{AreLive};
ghost use Rattle.combined_index.specs.LiveMarks.{IsStarted, exported};

use crate::index::Index;
use crate::walk::Walk;
use ir_tree::Text;
use lto_sets::Bits;
use std::alloc::{AllocError, Global};

/// The number of a name that is defined for other modules; `None` where it has no definition that prevails.
pub(crate) fn exported(index: &Index, name: &[u8]) -> Option<u32>
    ensures { result ≡ exported index.now name.now }
{
    let number = index.number_of(name)?;
    match index.prevailing(number) {
        Some(_) => Some(number),
        None => None,
    }
}

/// The walk at the exported names.
fn start(alloc: Global, index: &Index, roots: &[Text]) -> Result<Walk, AllocError>
    ensures { IfOk result (λ w. IsStarted index.now roots.now w.reached w.waiting.items) }
{
    let mut walk = Walk::new(alloc, index.symbols().len() as u32)?;
    for root in roots {
        if let Some(number) = exported(index, root.as_slice()) {
            walk.reach(number)?;
        }
    }
    Ok(walk)
}

/// The live symbols, by their numbers.
pub(crate) fn reached(alloc: Global, index: &Index, roots: &[Text]) -> Result<Bits, AllocError>
    ensures { IfOk result (λ marks. AreLive index.now roots.now marks) }
{
    let mut walk = start(alloc, index, roots)?;
    while let Some(number) = walk.waiting.pop() {
        if let Some(definition) = index.prevailing(number) {
            walk.reach_all(definition.refs.as_slice())?;
        }
    }
    let Walk {
        reached,
        waiting: _,
    } = walk;
    Ok(reached)
}
