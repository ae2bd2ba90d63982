//! What names stand for in a module (LangRef, "Linkage Types": `private` and `internal`).
ghost use Rattle.std.specs.Prelude.{◌≡◌, ℕ, List, IfOk};
ghost use Rattle.combined_index.specs.Entries.{is_own, prevails_at, symbol_of};
ghost use Rattle.combined_index.specs.Numbered.{is_kept, symbol};

use crate::key::Key;
use indexmap::IndexSet;
use ir_summary::Summary;
use std::alloc::{AllocError, Global};
use symbol_resolve::Resolution;

/// The names that a module defines for itself.
pub(crate) fn own_names<'a>(
    alloc: Global,
    summaries: &'a [Summary],
) -> Result<IndexSet<&'a [u8]>, AllocError>
    ensures { IfOk result (λ own. (name : List ℕ) → is_kept own.keys name ≡ is_own summaries.entry.now name) }
{
    let mut own = IndexSet::new(alloc);
    for summary in summaries {
        if summary.linkage.is_local() {
            own.insert(summary.name.as_slice())?;
        }
    }
    Ok(own)
}

/// A module's number and its own names.
#[derive(Drop)]
pub(crate) struct Scope<'a> {
    pub number: u32,
    pub own: IndexSet<&'a [u8]>,
}

impl<'a> Scope<'a> {
    /// The symbol that a name stands for in the module.
    pub fn key(&self, name: &'a [u8]) -> Key<'a>
        ensures { symbol result ≡ symbol_of self.now.number (is_kept self.now.own.keys) name.entry.now }
    {
        let home = if self.own.contains(name) {
            Some(self.number)
        } else {
            None
        };
        Key { home, name }
    }

    /// Whether the module's definition of this symbol prevails.
    pub fn prevails(&self, key: &Key, resolution: &Resolution) -> bool
        ensures { result ≡ prevails_at resolution.now self.now.number (symbol key.now) }
    {
        key.home == Some(self.number) || resolution.module_of(key.name) == Some(self.number)
    }
}
