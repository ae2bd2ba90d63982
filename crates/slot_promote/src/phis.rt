//! The phis by which blocks take the values of slots.
ghost use Rattle.std.specs.Prelude.{◌≡◌, ℕ, ◌<◌, length, IfOk};
ghost use Rattle.ir_tree.specs.Flow.{Among};
ghost use Rattle.slot_promote.specs.Promoted.{entry_of, entries_of, new_phis};
ghost use Rattle.slot_promote.specs.Tables.{end_view, ends_in, place_in};

use crate::slots::Slots;
use crate::values::{Values, number_behind};
use ir_tree::{Incoming, Phi, Rows};
use std::alloc::{AllocError, Global};

/// How a block ends: its number, and the slots' values there.
#[derive(Drop)]
pub(crate) struct BlockEnd {
    pub number: u32,
    pub values: Values,
}

impl BlockEnd {
    /// What a slot's phi takes from this block.
    fn entry(&self, alloc: Global, slots: &Slots, local: u32) -> Result<Incoming, AllocError>
        ensures { IfOk result (λ e. e ≡ entry_of local (end_view (place_in slots.now) self.now)) }
    {
        let value = self.values.at(alloc, slots, local)?;
        Ok(Incoming {
            from: self.number,
            value,
        })
    }
}

/// What a slot's phi takes from the blocks at these places.
fn entries(
    alloc: Global,
    slots: &Slots,
    ends: &[BlockEnd],
    local: u32,
    sources: &[u32],
) -> Result<Rows<Incoming>, AllocError>
    requires { (p : ℕ) → Among p sources.now → p < length ends.now }
    ensures { IfOk result (λ rows. rows ≡ entries_of (ends_in (place_in slots.now) ends.now) local sources.now) }
{
    let mut rows = Rows::new(alloc);
    for source in sources {
        rows.push(ends[*source as usize].entry(alloc, slots, local)?)?;
    }
    Ok(rows)
}

/// The new phis of a block to which the blocks at these places lead: one for each slot, where the first has a number.
pub(crate) fn new_phis(
    alloc: Global,
    slots: &Slots,
    ends: &[BlockEnd],
    sources: &[u32],
    first: Option<usize>,
) -> Result<Rows<Phi>, AllocError>
    requires { (p : ℕ) → Among p sources.now → p < length ends.now }
    ensures { IfOk result (λ phis. phis ≡ new_phis (ends_in (place_in slots.now) ends.now) sources.now first slots.now.list.items) }
{
    let mut phis = Rows::new(alloc);
    let Some(first) = first else {
        return Ok(phis);
    };
    for rank in 0..slots.list.len() {
        let slot = slots.list[rank];
        let local = number_behind(first, rank)?;
        let incoming = entries(alloc, slots, ends, slot.local, sources)?;
        phis.push(Phi {
            local,
            reg: slot.reg,
            incoming,
        })?;
    }
    Ok(phis)
}
