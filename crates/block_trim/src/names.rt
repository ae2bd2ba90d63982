//! The blocks into which others went.
ghost use Rattle.std.specs.Prelude.{◌≡◌, ℕ, map, nat_eq, IfOk};
ghost use Rattle.block_trim.specs.Merged.{entry_named, phi_named};
ghost use Rattle.block_trim.specs.Working.{name_in, naming};

use crate::joining::Join;
use ir_tree::{Duplicate, Incoming, Phi, Rows};
use std::alloc::{AllocError, Global};
use std::collections::HashMap;

/// The block that has each block's content, where that is another one.
#[derive(Drop)]
pub(crate) struct Names {
    table: HashMap<u32, u32>,
}

impl Names {
    /// The block that has this one's content.
    fn at(&self, number: u32) -> u32
        ensures { result ≡ name_in self.now number }
    {
        match self.table.get(&number) {
            Some(name) => *name,
            None => number,
        }
    }

    /// The names after these joins, by one pass from the last.
    pub(crate) fn of(alloc: Global, joins: &[Join]) -> Result<Self, AllocError>
        ensures { IfOk result (λ t. (n : ℕ) → name_in t n ≡ naming joins.now n) }
    {
        let mut names = Names {
            table: HashMap::new(alloc),
        };
        let count = joins.len();
        for done in 0..count {
            let join = joins[count - 1 - done];
            let name = names.at(join.first);
            names.table.insert(join.second, name)?;
        }
        Ok(names)
    }

    fn entries(&self, alloc: Global, entries: &[Incoming]) -> Result<Rows<Incoming>, AllocError>
        ensures { IfOk result (λ rows. rows ≡ map (entry_named (name_in self.now)) entries.now) }
    {
        let mut rows = Rows::new(alloc);
        for entry in entries {
            let value = entry.value.duplicate(alloc)?;
            rows.push(Incoming {
                from: self.at(entry.from),
                value,
            })?;
        }
        Ok(rows)
    }

    /// The phis with these names.
    pub(crate) fn phis(&self, alloc: Global, phis: &[Phi]) -> Result<Rows<Phi>, AllocError>
        ensures { IfOk result (λ rows. rows ≡ map (phi_named (name_in self.now)) phis.now) }
    {
        let mut rows = Rows::new(alloc);
        for phi in phis {
            let incoming = self.entries(alloc, phi.incoming.as_slice())?;
            rows.push(Phi {
                local: phi.local,
                reg: phi.reg,
                incoming,
            })?;
        }
        Ok(rows)
    }
}
