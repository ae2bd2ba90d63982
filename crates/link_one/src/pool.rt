//! Where the modules of a link are compiled.
ghost use Rattle.std.specs.Prelude.{◌<◌, ◌≤◌, ◌^◌, All, IfOk, length};
ghost use Rattle.std.specs.List.{AllZip};
ghost use mathlib.Core.List.{IsPrefix};
ghost use Rattle.cache_slot.specs.Places.{IsAt, seen_by};
ghost use Rattle.lto_task.specs.Tasks.{task_view};
ghost use Rattle.back_pool.specs.Making.{IsReady, IsTrusted};
ghost use Rattle.link_one.specs.TaskUnits.{HasVerifiedModules, IsTaskUnit};

use crate::passes::Passes;
use back_pool::run_pool;
use cache_slot::{CachePass, Setting, SharedCache};
use ir_tree::Rows;
use lto_outside::{CacheDisk, Gate};
use lto_task::{Piece, Task};
use std::alloc::{AllocError, Global};
use std::sync::Wait;
use std::thread::Threads;

/// Up to so many threads, which share a cache.
#[derive(Drop)]
pub(crate) struct Pool<'a, R, D: CacheDisk, S: Setting, G: Gate> {
    pub(crate) rt: &'a R,
    pub(crate) jobs: u32,
    pub(crate) cache: &'a SharedCache<D, S>,
    pub(crate) gate: &'a G,
    ghost few: { (1 ≤ jobs) × (jobs ≤ 64) },
}

impl<
    'a,
    R: Threads + Wait + Sync,
    D: CacheDisk + Send,
    S: Setting + Send + Sync,
    G: Gate + Sync,
> Pool<'a, R, D, S, G> {
    /// The units of the tasks, in their order: found in the cache, or compiled and stored.
    pub(crate) fn units(
        &self,
        alloc: Global,
        pass: &mut CachePass<D, S>,
        tasks: &[Task],
    ) -> Result<Vec<Rows<Piece>>, AllocError>
        requires count { length tasks.now < 2 ^ 32 }
        requires pass { IsAt self.now.cache.now.lock.table.shared.table_id pass.old.place.seat }
        requires tasks { All (λ t. IsReady S.keys D.fits IsTaskUnit HasVerifiedModules (task_view t)) tasks.now }
        ensures pass { IsAt self.now.cache.now.lock.table.shared.table_id pass.new.place.seat }
        ensures seen { IsPrefix (seen_by pass.old.place.seat) (seen_by pass.new.place.seat) }
        ensures made { IfOk result (λ units. IsTrusted S.dir D.fits S.files → ∥ AllZip (λ t ps. IsTaskUnit (task_view t) ps) tasks.now units.items ∥₁) }
    {
        run_pool(
            self.rt, alloc, self.jobs, tasks, &Passes, self.cache, pass, self.gate,
        )
    }
}
