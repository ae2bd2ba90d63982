//! The uses of a function by their readers.
ghost use Rattle.std.specs.Prelude.{◌≡◌, ◌++◌, ◌∷◌, [], ℕ, nat_eq, IfOk, OnOk, Some, None};
ghost use Rattle.dead_code.specs.Uses.{read_by};
ghost use Rattle.dead_code.specs.Readers.{read_for};

use crate::lists::Lists;
use crate::uses::Use;
use std::alloc::{AllocError, Global};

/// What effects read, and what the definitions of each local read.
#[derive(Drop)]
pub(crate) struct Readers {
    pub by_effects: Vec<u32>,
    pub by_definition: Lists,
}

impl Readers {
    /// One more use.
    fn add(&mut self, alloc: Global, one: Use) -> Result<(), AllocError>
        ensures effects { OnOk result (self.new.by_effects.items ≡ self.old.by_effects.items ++ read_by None (one ∷ [])) }
        ensures definitions { OnOk result ((x : ℕ) → read_for self.new x ≡ read_for self.old x ++ read_by (Some x) (one ∷ [])) }
    {
        match one.reader {
            None => self.by_effects.push(one.read)?,
            Some(local) => self.by_definition.push(alloc, local, one.read)?,
        }
        Ok(())
    }

    /// These uses by their readers.
    pub(crate) fn of(alloc: Global, uses: &[Use]) -> Result<Self, AllocError>
        ensures effects { IfOk result (λ r. r.by_effects.items ≡ read_by None uses.now) }
        ensures definitions { IfOk result (λ r. (x : ℕ) → read_for r x ≡ read_by (Some x) uses.now) }
    {
        let mut readers = Readers {
            by_effects: Vec::new(alloc),
            by_definition: Lists::new(alloc),
        };
        for one in uses {
            readers.add(alloc, *one)?;
        }
        Ok(readers)
    }
}
