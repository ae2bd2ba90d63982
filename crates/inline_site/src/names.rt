//! The last names of blocks.
ghost use Rattle.std.specs.Prelude.{◌≡◌, ℕ, map, IfOk, OnOk};
ghost use Rattle.inline_site.specs.Callers.{entry_by, name_in, named_by, phi_by, with_names};

use ir_tree::{Block, Duplicate, Incoming, Phi, Rows};
use std::alloc::{AllocError, Global};
use std::collections::HashMap;

/// The block of a call, and the one behind the call.
#[derive(Clone, Copy)]
pub(crate) struct Halves {
    pub(crate) block: u32,
    pub(crate) behind: u32,
}

/// The block behind the last call of each block that was cut at calls.
#[derive(Drop)]
struct Names {
    last: HashMap<u32, u32>,
}

impl Names {
    /// Of blocks that were cut at calls, one call after another.
    fn of(alloc: Global, halves: &[Halves]) -> Result<Names, AllocError>
        ensures { IfOk result (λ names. (n : ℕ) → name_in names n ≡ named_by halves.now n) }
    {
        let mut names = Names {
            last: HashMap::new(alloc),
        };
        for place in (0..halves.len()).rev() {
            let Halves { block, behind } = halves[place];
            let last = names.name(behind);
            names.last.insert(block, last)?;
        }
        Ok(names)
    }

    /// The last name of a block.
    fn name(&self, block: u32) -> u32
        ensures { result ≡ name_in self.now block }
    {
        match self.last.get(&block) {
            Some(last) => *last,
            None => block,
        }
    }

    fn entries(&self, alloc: Global, incoming: &[Incoming]) -> Result<Rows<Incoming>, AllocError>
        ensures { IfOk result (λ rows. rows ≡ map (entry_by (name_in self.now)) incoming.now) }
    {
        let mut rows = Rows::new(alloc);
        for entry in incoming {
            let from = self.name(entry.from);
            let value = entry.value.duplicate(alloc)?;
            rows.push(Incoming { from, value })?;
        }
        Ok(rows)
    }

    fn phis(&self, alloc: Global, phis: &[Phi]) -> Result<Rows<Phi>, AllocError>
        ensures { IfOk result (λ rows. rows ≡ map (phi_by (name_in self.now)) phis.now) }
    {
        let mut rows = Rows::new(alloc);
        for phi in phis {
            let incoming = self.entries(alloc, phi.incoming.as_slice())?;
            rows.push(Phi {
                local: phi.local,
                reg: phi.reg,
                incoming,
            })?;
        }
        Ok(rows)
    }

    /// Lets phi entries name blocks by their last names.
    fn rename(&self, alloc: Global, blocks: &mut Vec<Block>) -> Result<(), AllocError>
        ensures { OnOk result (blocks.new.items ≡ map (with_names (name_in self.now)) blocks.old.items) }
    {
        for place in 0..blocks.len() {
            let phis = self.phis(alloc, blocks[place].phis.as_slice())?;
            blocks[place].phis = phis;
        }
        Ok(())
    }
}

/// Lets phi entries name blocks by their last names, where blocks were cut at these calls, one after another.
pub(crate) fn rename(
    alloc: Global,
    halves: &[Halves],
    blocks: &mut Vec<Block>,
) -> Result<(), AllocError>
    ensures { OnOk result (blocks.new.items ≡ map (with_names (named_by halves.now)) blocks.old.items) }
{
    if halves.len() == 0 {
        return Ok(());
    }
    let names = Names::of(alloc, halves)?;
    names.rename(alloc, blocks)?;
    Ok(())
}
