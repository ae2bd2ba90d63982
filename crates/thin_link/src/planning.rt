//! The imports of all modules.
ghost use Rattle.std.specs.Prelude.{◌≡◌, length, IfOk};
ghost use Rattle.thin_link.specs.Plans.{IsPlan};
ghost use Rattle.thin_link.specs.Views.{rows};

use crate::levels::imports;
use crate::seen::Seen;
use combined_index::{Index, Live};
use std::alloc::{AllocError, Global};

/// For each module of a link the functions that it imports, as the numbers of their symbols in the
/// index, rising, each once.
///
/// A module imports a function that is defined elsewhere where a chain of direct calls leads to it from
/// a live definition of the module, through functions that are defined elsewhere, too. Each function of
/// the chain is neither `noinline` nor `optnone` nor of a linkage that lets its body be replaced, and has
/// at most so many instructions, phis and terminators: the first one `limit`, each further one seven
/// tenths, rounded down, of what the one before it may have. There is a mark for each symbol of the
/// index.
///
/// Beside want of memory, `2^32` modules or more are refused as too many. Takes time linear in the
/// index and, for each module, in the calls of what it imports, but for the sorting of its imports.
pub fn plan(
    alloc: Global,
    index: &Index,
    live: &Live,
    limit: u32,
) -> Result<Vec<Vec<u32>>, AllocError>
    requires { length live.now ≡ length index.now.symbols }
    ensures { IfOk result (λ lists. IsPlan index.now live.now limit (rows lists.items)) }
{
    let mut lists = Vec::new(alloc);
    let mut seen = Seen::new(alloc, index.symbols().len())?;
    for definitions in index.modules() {
        lists.push(imports(alloc, &mut seen, index, live, definitions.as_slice(), limit)?)?;
    }
    Ok(lists)
}
