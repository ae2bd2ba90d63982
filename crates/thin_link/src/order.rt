//! The order of a report's lines.
ghost use Rattle.std.specs.Prelude.{OnOk, IsPermutation};
ghost use Rattle.thin_link.specs.Listed.{IsInOrder};
ghost use Rattle.thin_link.specs.Rows.{all_shown};

use crate::entry::Entry;
use std::alloc::AllocError;

/// Sorts entries by name, in the order of bytes, and those of one name by module.
pub(crate) fn sort_entries(entries: &mut Vec<Entry>) -> Result<(), AllocError>
    ensures order { OnOk result (IsInOrder (all_shown entries.old.items) (all_shown entries.new.items)) }
    ensures same { IsPermutation entries.old.items entries.new.items }
{
    entries.sort_by_key(|entry| (entry.name, entry.home))?;
    Ok(())
}
