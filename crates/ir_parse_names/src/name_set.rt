//! Sets of names, in the order in which they are first seen.
ghost use Rattle.std.specs.Prelude.{◌≡◌, [], ◌∷◌, ◌++◌, Ok, false};
ghost use Rattle.std.specs.Cow.{cow_slice_items};
ghost use Rattle.ir_parse_names.specs.Globals.{has_name};
ghost use Rattle.ir_parse_names.specs.Groups.{once};
ghost use Rattle.ir_parse_names.specs.Resolving.{ResolvesTo};

use crate::fault::ResolveError;
use indexmap::IndexSet;
use std::alloc::Global;
use std::borrow::CowSlice;
use std::marker::Model;

/// Names, each once.
#[derive(Drop)]
pub struct NameSet<'t> {
    set: IndexSet<CowSlice<'t, u8, Global>>,
}

impl<'t> Model for NameSet<'t> {
    ghost use Rattle.std.specs.Prelude.{List, ℕ, map};
    ghost use Rattle.std.specs.Cow.{cow_slice_items};

    ghost Value = { List (List ℕ) };

    ghost view = { λ s. map cow_slice_items s.set.keys };
}

impl<'t> NameSet<'t> {
    /// No name.
    pub fn new(alloc: Global) -> NameSet<'t>
        ensures { result ≡ [] }
    {
        NameSet {
            set: IndexSet::new(alloc),
        }
    }

    /// Whether a name is there.
    pub fn contains(&self, wanted: &CowSlice<'t, u8, Global>) -> bool
        ensures { result ≡ has_name self.now (cow_slice_items wanted.now) }
    {
        self.set.contains(wanted)
    }

    /// One more name, which isn't there.
    pub(crate) fn push(&mut self, wanted: CowSlice<'t, u8, Global>) -> Result<(), ResolveError>
        requires { has_name self.old (cow_slice_items wanted) ≡ false }
        ensures { ResolvesTo (λ _. self.new) result (Ok (self.old ++ cow_slice_items wanted.entry ∷ [])) }
    {
        self.set.insert(wanted)?;
        Ok(())
    }

    /// One more name, where it isn't there.
    pub fn add(&mut self, wanted: CowSlice<'t, u8, Global>) -> Result<(), ResolveError>
        ensures { ResolvesTo (λ _. self.new) result (Ok (once self.old (cow_slice_items wanted.entry))) }
    {
        if self.contains(&wanted) {
            return Ok(());
        }
        self.push(wanted)
    }
}
