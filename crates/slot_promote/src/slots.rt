//! The slots that are promoted, by their locals.
ghost use Rattle.std.specs.HashMap as hash;
ghost use Rattle.std.specs.Prelude.{◌≡◌, ℕ, nat_eq, IfOk};
ghost use Rattle.promotable_slots.specs.Slots.{promoted_slots};
ghost use Rattle.slot_promote.specs.Tables.{place_in};
ghost use Rattle.slot_promote.specs.Values.{placed, is_there, reg_of, rank_of};

use ir_tree::{Function, Reg};
use promotable_slots::{Slot, promoted_slots};
use std::alloc::{AllocError, Global};
use std::collections::HashMap;

/// The rank of a slot among those that are promoted, from 0, and its type.
#[derive(Clone, Copy)]
pub(crate) struct SlotRank {
    pub rank: usize,
    pub reg: Reg,
}

/// The slots that are promoted, in the order of their `alloca`s, and their places by their locals.
#[derive(Drop)]
pub(crate) struct Slots {
    pub list: Vec<Slot>,
    places: HashMap<u32, SlotRank>,
}

/// The places of these slots by their locals.
fn places(alloc: Global, list: &[Slot]) -> Result<HashMap<u32, SlotRank>, AllocError>
    ensures { IfOk result (λ t. (x : ℕ) → hash.get nat_eq t x ≡ placed 0 list.now x) }
{
    let mut places = HashMap::new(alloc);
    for rank in (0..list.len()).rev() {
        let Slot { local, reg } = list[rank];
        places.insert(local, SlotRank { rank, reg })?;
    }
    Ok(places)
}

impl Slots {
    /// The slots of a function that are promoted.
    pub(crate) fn of(alloc: Global, f: &Function) -> Result<Self, AllocError>
        ensures list { IfOk result (λ s. s.list.items ≡ promoted_slots f.now) }
        ensures places { IfOk result (λ s. (x : ℕ) → place_in s x ≡ placed 0 (promoted_slots f.now) x) }
    {
        let list = promoted_slots(alloc, f)?;
        let places = places(alloc, &list)?;
        Ok(Slots { list, places })
    }

    /// Whether the local is a slot that is promoted.
    pub(crate) fn has(&self, local: u32) -> bool
        ensures { result ≡ is_there (place_in self.now local) }
    {
        match self.places.get(&local) {
            Some(_) => true,
            None => false,
        }
    }

    /// The type of a slot.
    pub(crate) fn reg(&self, local: u32) -> Reg
        ensures { result ≡ reg_of (place_in self.now local) }
    {
        match self.places.get(&local) {
            Some(place) => place.reg,
            None => Reg::Ptr,
        }
    }

    /// How many slots stand before this one.
    pub(crate) fn rank(&self, local: u32) -> usize
        ensures { result ≡ rank_of (place_in self.now local) }
    {
        match self.places.get(&local) {
            Some(place) => place.rank,
            None => 0,
        }
    }
}
