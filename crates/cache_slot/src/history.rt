//! The history: a list of records that only contracts see.
ghost use Rattle.std.specs.Prelude.{◌≡◌, List, [], ◌∷◌, ◌++◌};
ghost use Rattle.std.specs.Borrow.{ftrue};
ghost use Rattle.cache_slot.specs.declared.record.Record.{Record};

use crate::record::{Note, Record};
use std::marker::Model;

/// The records, the oldest first. They take no memory, and its methods do nothing at run time.
#[derive(Drop)]
pub struct History {
    pub ghost items: { List Record },
}

impl Model for History {
    ghost also_owns = { λ _. ftrue };
}

// It owns nothing.
unsafe impl Send for History {}

impl History {
    ghost use Rattle.cache_slot.specs.Noted.{noted};

    /// No records.
    pub(crate) fn new() -> History
        ensures { result.items ≡ [] }
    {
        History {}
    }

    /// These records, and one more.
    pub(crate) fn with(&self, note: &Note<'_>) -> History
        ensures { result.items ≡ self.now.items ++ noted note.now ∷ [] }
    {
        History {}
    }
}
