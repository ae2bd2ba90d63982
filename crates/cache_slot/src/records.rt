//! The history, and what is kept of it.
ghost use Rattle.std.specs.Prelude.{◌≡◌, ℕ, List, length};
ghost use Rattle.cache_slot.specs.Records.{text_of};
ghost use Rattle.cache_slot.specs.Table.{text_at};
ghost use Rattle.std.proofs.Props.{props};

use crate::history::History;
use crate::key::Key;
use crate::record::Note;
use ir_tree::Text;
use std::alloc::{AllocError, Global};
use std::collections::HashMap;

/// The history, which stands in contracts alone, and what is kept of it at run time: the texts of its entries, each under
/// its key, and how many records there are.
#[derive(Drop)]
pub struct Records {
    pub(crate) history: History,
    entries: HashMap<Key, Text>,
    count: u64,
    ghost found: { (key : List ℕ) → text_at key entries ≡ text_of key history.items } by { Prim.hlevel props },
    ghost counted: { count ≡ length history.items },
}

impl Records {
    ghost use Rattle.std.specs.Prelude.{◌+◌, ◌<◌, ◌^◌, [], ◌∷◌, ◌++◌, None, OnOk};
    ghost use Rattle.std.specs.Option.{option_copied};
    ghost use Rattle.cache_slot.specs.declared.record.Record.TheVariants.{Entry};
    ghost use Rattle.cache_slot.specs.Noted.{noted};
    ghost use Rattle.cache_slot.specs.Records.{IsNoEntry};
    ghost use Rattle.std.specs.HashMap.{spare};

    /// No records. Takes no memory.
    pub(crate) fn new(alloc: Global) -> Self
        ensures { result.history.items ≡ [] }
    {
        Records {
            history: History::new(),
            entries: HashMap::new(alloc),
            count: 0,
        }
    }

    /// The text of the first entry of the key. It is found by the key's hash.
    pub(crate) fn text(&self, key: &Key) -> Option<&Text>
        ensures { option_copied result ≡ text_of key.now self.now.history.items }
    {
        self.entries.get(key)
    }

    /// How many records there are.
    pub(crate) fn count(&self) -> u64
        ensures result { result ≡ length self.now.history.items }
        ensures small { length self.now.history.items < 2 ^ 64 }
    {
        self.count
    }

    /// Refused where no more records can be counted, and else there is nothing to do.
    pub(crate) fn check_count(&self) -> Result<(), AllocError>
        ensures { OnOk result (length self.now.history.items + 1 < 2 ^ 64) }
    {
        if self.count == u64::MAX {
            return Err(AllocError);
        }
        Ok(())
    }

    /// Makes room for one more entry.
    pub(crate) fn reserve(&mut self) -> Result<(), AllocError>
        ensures records { self.new.history.items ≡ self.old.history.items }
        ensures room { OnOk result (0 < spare self.new.entries) }
    {
        self.entries.reserve(1)
    }

    /// Adds a record that is no entry.
    pub(crate) fn note(&mut self, note: &Note<'_>)
        requires counted { length self.old.history.items + 1 < 2 ^ 64 }
        requires note { IsNoEntry (noted note.now) }
        ensures { self.new.history.items ≡ self.old.history.items ++ noted note.now ∷ [] }
    {
        self.history = self.history.with(note);
        self.count += 1;
    }

    /// Adds an entry of a key that has none.
    pub(crate) fn enter(&mut self, key: Key, text: Text, failed: bool)
        requires counted { length self.old.history.items + 1 < 2 ^ 64 }
        requires room { 0 < spare self.old.entries }
        requires new { text_of key self.old.history.items ≡ None }
        ensures { self.new.history.items ≡ self.old.history.items ++ Entry key text failed ∷ [] }
    {
        self.history = self.history.with(&Note::Entry {
            key: key.as_slice(),
            text: text.as_slice(),
            failed,
        });
        self.count += 1;
        let Ok(_) = self.entries.insert(key, text) else {
            unreachable!()
        };
    }
}
