//! The summaries of all modules, and their index.
ghost use Rattle.std.specs.Prelude.{◌≡◌, map, IfOk};
ghost use Rattle.ir_summary.specs.Summaries.{summaries};
ghost use Rattle.symbol_resolve.specs.Resolved.{symbols};
ghost use Rattle.thin_link.specs.Linking.{IsIndex};

use combined_index::{Index, combine};
use ir_summary::{Summary, summarise};
use ir_tree::Verified;
use std::alloc::{AllocError, Global};
use symbol_resolve::Resolution;

/// Of each module its summaries.
fn summaries(alloc: Global, modules: &[Verified]) -> Result<Vec<Vec<Summary>>, AllocError>
    ensures { IfOk result (λ all. map (λ v. v.items) all.items ≡ map (λ m. summaries m.globals) modules.now) }
{
    let mut all = Vec::new(alloc);
    for module in modules {
        all.push(summarise(alloc, module)?)?;
    }
    Ok(all)
}

/// The combined index of modules whose symbols are resolved so.
pub(crate) fn indexed(
    alloc: Global,
    modules: &[Verified],
    resolution: &Resolution,
) -> Result<Index, AllocError>
    requires { resolution.now ≡ symbols modules.now }
    ensures { IfOk result (IsIndex modules.now) }
{
    let summaries = summaries(alloc, modules)?;
    combine(alloc, summaries, resolution)
}
