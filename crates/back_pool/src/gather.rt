//! What the workers have done, put in the order of the tasks.
ghost use Rattle.std.specs.Prelude.{◌≡◌, ◌≤◌, All, IfOk, IfSome, Some, None, length, map, vec_capacity, vec_len};
ghost use Rattle.std.specs.List.{AllZip};
ghost use mathlib.Core.List.{IsPrefix};
ghost use Rattle.cache_slot.specs.Places.{IsAt, seen_by};
ghost use Rattle.back_pool.specs.Making.{IsTrusted};
ghost use Rattle.back_pool.specs.Working.{AreAnswers, IsDone};

use crate::backend::Backend;
use crate::done::Done;
use crate::pool::Pool;
use crate::worker::Worker;
use cache_slot::{CachePass, Setting};
use ir_tree::Rows;
use lto_outside::{CacheDisk, Gate};
use lto_task::Piece;
use std::alloc::{AllocError, Global};

/// So many slots with nothing in them.
pub(crate) fn empty(alloc: Global, count: usize) -> Result<Vec<Option<Rows<Piece>>>, AllocError>
    ensures { IfOk result (λ slots. (length slots.items ≡ count) × All (λ slot. slot ≡ None) slots.items) }
{
    let mut slots = Vec::with_capacity(alloc, count)?;
    for _ in 0..count {
        slots.push_reserved(None);
    }
    Ok(slots)
}

/// What is in the slots, in their order, moved to a list that has room for it; a slot with nothing is want of memory.
pub(crate) fn taken(
    slots: Vec<Option<Rows<Piece>>>,
    mut list: Vec<Rows<Piece>>,
) -> Result<Vec<Rows<Piece>>, AllocError>
    requires empty { vec_len list ≡ 0 }
    requires room { vec_len slots ≤ vec_capacity list }
    ensures { IfOk result (λ units. slots.items ≡ map Some units.items) }
{
    for slot in slots {
        list.push_reserved(slot.ok_or(AllocError)?);
    }
    Ok(list)
}

impl<'a, D: CacheDisk, S: Setting, B: Backend, G: Gate> Pool<'a, D, S, B, G> {
    /// Puts the pieces of a task into its slot, where there are any.
    fn put(&self, slots: &mut [Option<Rows<Piece>>], done: Done)
        requires slots { AreAnswers (IsTrusted S.dir D.fits S.files) B.makes self.now.tasks.now slots.old }
        requires done { IsDone (IsTrusted S.dir D.fits S.files) B.makes self.now.tasks.now done }
        ensures slots { AreAnswers (IsTrusted S.dir D.fits S.files) B.makes self.now.tasks.now slots.new }
    {
        let Done { number, pieces } = done;
        if let Some(pieces) = pieces {
            slots[number as usize] = Some(pieces);
        }
    }

    /// Puts what a worker has done into the slots of its tasks.
    fn put_all(&self, slots: &mut [Option<Rows<Piece>>], done: Vec<Done>)
        requires slots { AreAnswers (IsTrusted S.dir D.fits S.files) B.makes self.now.tasks.now slots.old }
        requires done { All (IsDone (IsTrusted S.dir D.fits S.files) B.makes self.now.tasks.now) done.items }
        ensures slots { AreAnswers (IsTrusted S.dir D.fits S.files) B.makes self.now.tasks.now slots.new }
    {
        for one in done {
            self.put(slots, one);
        }
    }

    /// Puts what all workers have done into the slots of its tasks, and joins their passes.
    pub(crate) fn gather(
        &self,
        pass: &mut CachePass<D, S>,
        slots: &mut [Option<Rows<Piece>>],
        workers: Vec<Worker<D, S>>,
    )
        requires pass { IsAt self.now.cache.now.lock.table.shared.table_id pass.old.place.seat }
        requires slots { AreAnswers (IsTrusted S.dir D.fits S.files) B.makes self.now.tasks.now slots.old }
        requires workers { All (λ w. IsAt self.now.cache.now.lock.table.shared.table_id w.pass.place.seat) workers.items }
        requires done { All (λ w. All (IsDone (IsTrusted S.dir D.fits S.files) B.makes self.now.tasks.now) w.done.items) workers.items }
        ensures pass { IsAt self.now.cache.now.lock.table.shared.table_id pass.new.place.seat }
        ensures seen { IsPrefix (seen_by pass.old.place.seat) (seen_by pass.new.place.seat) }
        ensures slots { AreAnswers (IsTrusted S.dir D.fits S.files) B.makes self.now.tasks.now slots.new }
    {
        for worker in workers {
            let Worker {
                number: _,
                draws: _,
                pass: other,
                done,
            } = worker;
            self.cache.join(pass, other);
            self.put_all(slots, done);
        }
    }
}
