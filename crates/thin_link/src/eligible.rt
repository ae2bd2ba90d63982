//! The functions that may be imported.
ghost use Rattle.std.specs.Prelude.{◌≡◌};
ghost use Rattle.thin_link.specs.Chains.{counts_within, is_eligible, is_importable};

use combined_index::{Definition, Index};

/// Whether calls of a function may be inlined at all.
fn is_eligible(definition: &Definition) -> bool
    ensures { result ≡ is_eligible definition.now }
{
    !definition.noinline && !definition.optnone && !definition.linkage.is_replaceable()
}

/// Whether this is the count of a function of so many instructions at most.
fn counts_within(most: u32, count: Option<u32>) -> bool
    ensures { result ≡ counts_within most count }
{
    match count {
        Some(count) => count <= most,
        None => false,
    }
}

/// Whether a function may be imported where its body has so many instructions at most: its definition
/// that prevails is eligible and small enough.
pub(crate) fn is_importable(index: &Index, most: u32, function: u32) -> bool
    ensures { result ≡ is_importable index.now most function }
{
    match index.prevailing(function) {
        Some(definition) => is_eligible(definition) && counts_within(most, definition.count),
        None => false,
    }
}
