//! Functions that calls reach, each noted once.
ghost use Rattle.std.specs.Prelude.{◌≡◌, ◌<◌, ◌||◌, ◌∷◌, [], ℕ, All, length, OnOk};
ghost use Rattle.lto_sets.specs.Sets.{contains};
ghost use Rattle.combined_index.specs.Combined.{AreWithin, IsWithin, prevails_for};
ghost use Rattle.thin_link.specs.Chains.{callees, is_importable, is_own};
ghost use Rattle.thin_link.specs.Walking.{Grown, is_kept, live_calls};

use crate::eligible::is_importable;
use crate::seen::Seen;
use combined_index::{Definition, Index, Live};
use std::alloc::AllocError;

/// Notes the symbol of a definition that prevails.
fn note_definition(seen: &mut Seen, definition: &Definition)
    requires { definition.now.symbol < length seen.old }
    ensures len { length seen.new ≡ length seen.old }
    ensures noted { (n : ℕ) → contains seen.new n ≡ (contains seen.old n || prevails_for n definition.now) }
{
    if definition.prevails {
        seen.note(definition.symbol);
    }
}

/// Notes the symbols of a module's own definitions that prevail.
pub(crate) fn note_own(seen: &mut Seen, definitions: &[Definition])
    requires { AreWithin (length seen.old) definitions.now }
    ensures len { length seen.new ≡ length seen.old }
    ensures noted { (n : ℕ) → contains seen.new n ≡ (contains seen.old n || is_own definitions.now n) }
{
    for definition in definitions {
        note_definition(seen, definition);
    }
}

/// Reaches a function by a call. One of so many instructions at most that may be imported and wasn't
/// seen before goes to the end of the level.
fn reach(
    seen: &mut Seen,
    level: &mut Vec<u32>,
    index: &Index,
    most: u32,
    function: u32,
) -> Result<(), AllocError>
    requires { function < length seen.old }
    ensures { OnOk result (Grown (is_importable index.now most) seen.old level.old.items (function ∷ []) seen.new level.new.items) }
{
    if !seen.has(function) && is_importable(index, most, function) {
        level.push(function)?;
        seen.note(function);
    }
    Ok(())
}

/// Reaches each of these functions.
fn reach_all(
    seen: &mut Seen,
    level: &mut Vec<u32>,
    index: &Index,
    most: u32,
    functions: &[u32],
) -> Result<(), AllocError>
    requires { All (λ n. n < length seen.old) functions.now }
    ensures { OnOk result (Grown (is_importable index.now most) seen.old level.old.items functions.now seen.new level.new.items) }
{
    for function in functions {
        reach(seen, level, index, most, *function)?;
    }
    Ok(())
}

/// Whether the link keeps a definition: it prevails, and its symbol is live.
fn is_kept(live: &Live, definition: &Definition) -> bool
    requires { definition.now.symbol < length live.now }
    ensures { result ≡ is_kept live.now definition.now }
{
    definition.prevails && live.has(definition.symbol)
}

/// Reaches the functions that a definition calls, if the link keeps it.
pub(crate) fn reach_from(
    seen: &mut Seen,
    level: &mut Vec<u32>,
    index: &Index,
    live: &Live,
    most: u32,
    definition: &Definition,
) -> Result<(), AllocError>
    requires within { IsWithin (length seen.old) definition.now }
    requires live { length live.now ≡ length seen.old }
    ensures { OnOk result (Grown (is_importable index.now most) seen.old level.old.items (live_calls live.now definition.now) seen.new level.new.items) }
{
    if is_kept(live, definition) {
        reach_all(seen, level, index, most, definition.calls.as_slice())?;
    }
    Ok(())
}

/// Reaches the functions that another one calls, by its definition that prevails.
pub(crate) fn reach_through(
    seen: &mut Seen,
    level: &mut Vec<u32>,
    index: &Index,
    most: u32,
    function: u32,
) -> Result<(), AllocError>
    requires { length seen.old ≡ length index.now.symbols }
    ensures { OnOk result (Grown (is_importable index.now most) seen.old level.old.items (callees index.now function) seen.new level.new.items) }
{
    if let Some(definition) = index.prevailing(function) {
        reach_all(seen, level, index, most, definition.calls.as_slice())?;
    }
    Ok(())
}
