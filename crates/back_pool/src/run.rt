//! The workers of a pool, each on a thread.
ghost use Rattle.std.specs.Prelude.{◌≡◌, All, IfOk, vec_capacity};
ghost use Rattle.cache_slot.specs.Places.{IsAt, seen_by};
ghost use Rattle.claim_word.specs.Passes.{IsPassOf};
ghost use Rattle.lto_task.specs.Tasks.{task_view};
ghost use Rattle.back_pool.specs.Making.{IsReady, IsTrusted};
ghost use Rattle.back_pool.specs.Working.{IsAtWork, IsDone};

use crate::backend::Backend;
use crate::pool::Pool;
use crate::worker::Worker;
use cache_slot::{CachePass, Setting};
use claim_word::ClaimPass;
use lto_outside::{CacheDisk, Gate};
use std::alloc::{AllocError, Global};
use std::sync::Wait;
use std::thread::{Threads, for_each_mut};

impl<'a, D: CacheDisk, S: Setting, B: Backend, G: Gate> Pool<'a, D, S, B, G> {
    /// So many workers, each with passes of its own, split off these, and a list with room for all tasks.
    pub(crate) fn workers(
        &self,
        alloc: Global,
        count: u32,
        draws: &mut ClaimPass,
        pass: &mut CachePass<D, S>,
    ) -> Result<Vec<Worker<D, S>>, AllocError>
        requires draws { IsPassOf self.now.claims draws.old }
        requires pass { IsAt self.now.cache.now.lock.table.shared.table_id pass.old.place.seat }
        ensures pass { IsAt self.now.cache.now.lock.table.shared.table_id pass.new.place.seat }
        ensures seen { seen_by pass.new.place.seat ≡ seen_by pass.old.place.seat }
        ensures workers { IfOk result (λ v. All (λ w. IsAtWork self.now.claims self.now.cache.now.lock.table.shared.table_id w.draws w.pass.place.seat w.done.items (vec_capacity w.done)) v.items) }
        ensures done { IfOk result (λ v. All (λ w. All (IsDone (IsTrusted S.dir D.fits S.files) B.makes self.now.tasks.now) w.done.items) v.items) }
    {
        let mut workers = Vec::new(alloc);
        for number in 0..count {
            let done = Vec::with_capacity(alloc, self.tasks.len())?;
            let Ok(draws) = self.claims.split(draws) else {
                break;
            };
            let pass = self.cache.split(pass);
            workers.push(Worker {
                number,
                draws,
                pass,
                done,
            })?;
        }
        Ok(workers)
    }
}

impl<'a, D: CacheDisk + Send, S: Setting + Send + Sync, B: Backend + Sync, G: Gate + Sync> Pool<
    'a,
    D,
    S,
    B,
    G,
> {
    /// Each worker does tasks on a thread of its own until no number is left.
    pub(crate) fn work_in_threads<R: Threads + Wait + Sync>(
        &self,
        rt: &R,
        alloc: Global,
        workers: &mut [Worker<D, S>],
    )
        requires tasks { All (λ t. IsReady S.keys D.fits B.makes B.takes (task_view t)) self.now.tasks.now }
        requires workers { All (λ w. IsAtWork self.now.claims self.now.cache.now.lock.table.shared.table_id w.draws w.pass.place.seat w.done.items (vec_capacity w.done)) workers.old }
        requires done { All (λ w. All (IsDone (IsTrusted S.dir D.fits S.files) B.makes self.now.tasks.now) w.done.items) workers.old }
        ensures workers { All (λ w. IsAtWork self.now.claims self.now.cache.now.lock.table.shared.table_id w.draws w.pass.place.seat w.done.items (vec_capacity w.done)) workers.new }
        ensures done { All (λ w. All (IsDone (IsTrusted S.dir D.fits S.files) B.makes self.now.tasks.now) w.done.items) workers.new }
    {
        let threads = workers.len();
        if threads > 0 {
            for_each_mut(
                rt,
                workers,
                threads,
                &|_: usize, worker: &mut Worker<D, S>| { self.work(rt, alloc, worker) },
            );
        }
    }
}
