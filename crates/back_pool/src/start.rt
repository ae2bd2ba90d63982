//! The one call of the crate.
ghost use Rattle.std.specs.Prelude.{◌≡◌, ◌<◌, ◌≤◌, ◌^◌, All, IfOk, length};
ghost use Rattle.std.specs.List.{AllZip, Contains};
ghost use mathlib.Core.List.{IsPrefix};
ghost use Rattle.cache_slot.specs.Places.{IsAt, seen_by};
ghost use Rattle.claim_word.specs.Passes.{IsPassOf};
ghost use Rattle.lto_task.specs.Tasks.{IsWrittenTask, task_text, task_view};
ghost use Rattle.back_pool.specs.Making.{FitsAsMade, IsAnswer, IsReady, IsTrusted};
ghost use Rattle.back_pool.specs.Working.{AreAnswers};

use crate::backend::Backend;
use crate::gather::{empty, taken};
use crate::pool::Pool;
use cache_slot::{CachePass, Setting, SharedCache};
use claim_word::{ClaimPass, Claims};
use ir_tree::Rows;
use lto_outside::{CacheDisk, Gate};
use lto_task::{Piece, Task};
use std::alloc::{AllocError, Global};
use std::sync::Wait;
use std::thread::Threads;

impl<'a, D: CacheDisk + Send, S: Setting + Send + Sync, B: Backend + Sync, G: Gate + Sync> Pool<
    'a,
    D,
    S,
    B,
    G,
> {
    /// Puts the answers of all tasks into the slots, by so many workers.
    fn fill<R: Threads + Wait + Sync>(
        &self,
        rt: &R,
        alloc: Global,
        count: u32,
        draws: &mut ClaimPass,
        pass: &mut CachePass<D, S>,
        slots: &mut [Option<Rows<Piece>>],
    ) -> Result<(), AllocError>
        requires tasks { All (λ t. IsReady S.keys D.fits B.makes B.takes (task_view t)) self.now.tasks.now }
        requires draws { IsPassOf self.now.claims draws.old }
        requires pass { IsAt self.now.cache.now.lock.table.shared.table_id pass.old.place.seat }
        requires slots { AreAnswers (IsTrusted S.dir D.fits S.files) B.makes self.now.tasks.now slots.old }
        ensures pass { IsAt self.now.cache.now.lock.table.shared.table_id pass.new.place.seat }
        ensures seen { IsPrefix (seen_by pass.old.place.seat) (seen_by pass.new.place.seat) }
        ensures slots { AreAnswers (IsTrusted S.dir D.fits S.files) B.makes self.now.tasks.now slots.new }
    {
        let mut workers = self.workers(alloc, count, draws, pass)?;
        self.work_in_threads(rt, alloc, workers.as_mut_slice());
        self.gather(pass, slots, workers);
        Ok(())
    }

    /// The answers of all tasks, in their order, by so many workers.
    fn run<R: Threads + Wait + Sync>(
        &self,
        rt: &R,
        alloc: Global,
        count: u32,
        draws: &mut ClaimPass,
        pass: &mut CachePass<D, S>,
    ) -> Result<Vec<Rows<Piece>>, AllocError>
        requires tasks { All (λ t. IsReady S.keys D.fits B.makes B.takes (task_view t)) self.now.tasks.now }
        requires draws { IsPassOf self.now.claims draws.old }
        requires pass { IsAt self.now.cache.now.lock.table.shared.table_id pass.old.place.seat }
        ensures pass { IsAt self.now.cache.now.lock.table.shared.table_id pass.new.place.seat }
        ensures seen { IsPrefix (seen_by pass.old.place.seat) (seen_by pass.new.place.seat) }
        ensures each { IfOk result (λ units. AllZip (λ t ps. IsAnswer (IsTrusted S.dir D.fits S.files) B.makes (task_view t) ps) self.now.tasks.now units.items) }
    {
        let mut slots = empty(alloc, self.tasks.len())?;
        let units = Vec::with_capacity(alloc, self.tasks.len())?;
        self.fill(rt, alloc, count, draws, pass, slots.as_mut_slice())?;
        taken(slots, units)
    }
}

/// The units of the tasks, in their order. Up to `jobs` workers, each on a thread, draw the numbers of the tasks: of each task
/// its text is looked up in the cache, and where no unit is found the back end compiles it, and the unit's text is stored.
/// Refused for memory alone. May wait for other callers of the cache.
pub fn run_pool<
    R: Threads + Wait + Sync,
    D: CacheDisk + Send,
    S: Setting + Send + Sync,
    B: Backend + Sync,
    G: Gate + Sync,
>(
    rt: &R,
    alloc: Global,
    jobs: u32,
    tasks: &[Task],
    backend: &B,
    cache: &SharedCache<D, S>,
    pass: &mut CachePass<D, S>,
    gate: &G,
) -> Result<Vec<Rows<Piece>>, AllocError>
    requires jobs { (1 ≤ jobs) × (jobs ≤ 64) }
    requires count { length tasks.now < 2 ^ 32 }
    requires pass { IsAt cache.now.lock.table.shared.table_id pass.old.place.seat }
    requires keys { All (λ t. S.keys (task_text (task_view t))) tasks.now }
    requires fits { All (λ t. IsWrittenTask (task_view t) → FitsAsMade D.fits B.makes (task_view t)) tasks.now }
    requires takes { All (λ t. B.takes (task_view t)) tasks.now }
    ensures pass { IsAt cache.now.lock.table.shared.table_id pass.new.place.seat }
    ensures seen { IsPrefix (seen_by pass.old.place.seat) (seen_by pass.new.place.seat) }

    // Whoever did them, and in which order.
    ensures each { IfOk result (λ units. AllZip (λ t ps. IsAnswer (IsTrusted S.dir D.fits S.files) B.makes (task_view t) ps) tasks.now units.items) }
{
    let (claims, mut draws) = Claims::new(alloc, tasks.len() as u32, jobs + 1)?;
    let pool = Pool {
        tasks,
        claims,
        backend,
        cache,
        gate,
    };
    pool.run(rt, alloc, jobs, &mut draws, pass)
}
