//! The functions that a module imports, level by level.
ghost use Rattle.std.specs.Prelude.{◌≡◌, ◌*◌, ◌/◌, [], length, IfOk};
ghost use Rattle.combined_index.specs.Combined.{AreWithin};
ghost use Rattle.thin_link.specs.Chains.{is_importable};
ghost use Rattle.thin_link.specs.Plans.{Imports};
ghost use Rattle.thin_link.specs.Walking.{AreFound, AreOwn, Grown, called, called_by};

use crate::reach::{note_own, reach_from, reach_through};
use crate::seen::Seen;
use combined_index::{Definition, Index, Live};
use std::alloc::{AllocError, Global};

/// Seven tenths of a limit, rounded down.
fn decayed(most: u32) -> u32
    ensures { result ≡ most * 7 / 10 }
{
    (u64::from(most) * 7 / 10) as u32
}

/// The functions of so many instructions at most that a module's live definitions call.
fn first_level(
    alloc: Global,
    seen: &mut Seen,
    index: &Index,
    live: &Live,
    definitions: &[Definition],
    most: u32,
) -> Result<Vec<u32>, AllocError>
    requires within { AreWithin (length seen.old) definitions.now }
    requires live { length live.now ≡ length seen.old }
    ensures { IfOk result (λ level. Grown (is_importable index.now most) seen.old [] (called live.now definitions.now) seen.new level.items) }
{
    let mut level = Vec::new(alloc);
    for definition in definitions {
        reach_from(seen, &mut level, index, live, most, definition)?;
    }
    Ok(level)
}

/// The functions of so many instructions at most that those of a level call.
fn next_level(
    alloc: Global,
    seen: &mut Seen,
    index: &Index,
    level: &[u32],
    most: u32,
) -> Result<Vec<u32>, AllocError>
    requires { length seen.old ≡ length index.now.symbols }
    ensures { IfOk result (λ next. Grown (is_importable index.now most) seen.old [] (called_by index.now level.now) seen.new next.items) }
{
    let mut next = Vec::new(alloc);
    for function in level {
        reach_through(seen, &mut next, index, most, *function)?;
    }
    Ok(next)
}

/// The functions that a module imports, by levels. Its own symbols are noted, and no other one.
fn levels(
    alloc: Global,
    seen: &mut Seen,
    index: &Index,
    live: &Live,
    definitions: &[Definition],
    limit: u32,
) -> Result<Vec<u32>, AllocError>
    requires size { length seen.old ≡ length index.now.symbols }
    requires live { length live.now ≡ length index.now.symbols }
    requires within { AreWithin (length index.now.symbols) definitions.now }
    requires own { AreOwn definitions.now seen.old }
    ensures { IfOk result (λ found. (length seen.new ≡ length seen.old) × AreFound index.now live.now limit definitions.now found.items) }
{
    let mut most = limit;
    let mut found = Vec::new(alloc);
    let mut level = first_level(alloc, seen, index, live, definitions, most)?;
    while !level.is_empty() {
        most = decayed(most);
        let next = next_level(alloc, seen, index, &level, most)?;
        found.extend_from_slice(&level)?;
        level = next;
    }
    Ok(found)
}

/// The functions that a module of these definitions imports, by number, rising. What was noted for an
/// earlier module is passed over.
pub(crate) fn imports(
    alloc: Global,
    seen: &mut Seen,
    index: &Index,
    live: &Live,
    definitions: &[Definition],
    limit: u32,
) -> Result<Vec<u32>, AllocError>
    requires size { length seen.old ≡ length index.now.symbols }
    requires live { length live.now ≡ length index.now.symbols }
    requires within { AreWithin (length index.now.symbols) definitions.now }
    ensures { IfOk result (λ list. (length seen.new ≡ length seen.old) × Imports index.now live.now limit definitions.now list.items) }
{
    seen.clear()?;
    note_own(seen, definitions);
    let mut found = levels(alloc, seen, index, live, definitions, limit)?;
    found.sort_unstable();
    Ok(found)
}
