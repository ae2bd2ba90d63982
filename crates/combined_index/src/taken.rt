//! The least name that two symbols have.
ghost use Rattle.std.specs.Prelude.{◌≡◌, ◌∷◌, [], ◌++◌, Some, Option, List, ℕ, IfOk};
ghost use Rattle.combined_index.specs.Noted.{LeastTaken, Noted, lesser, text_of};
ghost use Rattle.ir_tree.specs.NameOrder.{comes_before};

use indexmap::IndexSet;
use ir_tree::Text;
use std::alloc::{AllocError, Global};
use std::cmp::Ordering;

/// Whether a name comes before another in the order of bytes.
fn comes_before(name: &[u8], other: &[u8]) -> bool
    ensures { result ≡ comes_before name.now other.now }
{
    match name.cmp(other) {
        Ordering::Less => true,
        Ordering::Equal | Ordering::Greater => false,
    }
}

/// The lesser of a name and the best so far.
fn lesser<'a>(best: Option<&'a [u8]>, name: &'a [u8]) -> &'a [u8]
    ensures { Some result.now ≡ lesser (text_of best.entry) name.entry.now }
{
    match best {
        Some(other) if !comes_before(name, other) => other,
        Some(_) | None => name,
    }
}

/// Notes the final name of a further symbol, which may be the least that came twice.
fn note<'a>(
    seen: &mut IndexSet<&'a [u8]>,
    best: Option<&'a [u8]>,
    name: &'a Option<Text>,
) -> Result<Option<&'a [u8]>, AllocError>
    ensures { IfOk result (λ least. (names : List (Option (List ℕ))) → Noted names seen.old.keys (text_of best.entry) → Noted (names ++ name.entry.now ∷ []) seen.new.keys (text_of least)) }
{
    let Some(name) = name else {
        return Ok(best);
    };
    let name = name.as_slice();
    if seen.insert(name)? {
        return Ok(best);
    }
    Ok(Some(lesser(best, name)))
}

/// The least name that two of these symbols have; `None` where each has its own. Names are compared
/// by their bytes, and each is looked up once.
pub(crate) fn least_taken<'a>(
    alloc: Global,
    names: &'a [Option<Text>],
) -> Result<Option<&'a [u8]>, AllocError>
    ensures { IfOk result (λ least. LeastTaken names.entry.now (text_of least)) }
{
    let mut seen = IndexSet::new(alloc);
    let mut least = None;
    for name in names {
        least = note(&mut seen, least, name)?;
    }
    Ok(least)
}
