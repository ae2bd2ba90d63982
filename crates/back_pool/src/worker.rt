//! A worker, which draws numbers and does the task of each.
ghost use Rattle.std.specs.Prelude.{◌≡◌, ◌<◌, ◌^◌, All, IfOk, IsFalse, IsTrue, length};
ghost use Rattle.std.specs.Prelude.{vec_capacity};
ghost use Rattle.std.specs.List.{Contains};
ghost use Rattle.claim_word.specs.Passes.{draws_of};
ghost use Rattle.lto_task.specs.Tasks.{task_text, task_view};
ghost use Rattle.back_pool.specs.Making.{IsReady, IsTrusted};
ghost use Rattle.back_pool.specs.Working.{IsAtWork, IsDone};

use crate::backend::Backend;
use crate::done::Done;
use crate::pool::{Pool, Turn};
use cache_slot::{CachePass, Setting};
use claim_word::ClaimPass;
use lto_outside::{CacheDisk, Gate, Stage};
use std::alloc::Global;
use std::sync::Wait;

/// A worker: what it draws with, its right to use the cache, and what it has done.
#[derive(Drop)]
pub(crate) struct Worker<D: CacheDisk, S: Setting> {
    pub(crate) number: u32,
    pub(crate) draws: ClaimPass,
    pub(crate) pass: CachePass<D, S>,
    pub(crate) done: Vec<Done>,
}

impl<'a, D: CacheDisk, S: Setting, B: Backend, G: Gate> Pool<'a, D, S, B, G> {
    /// Draws a number, and does its task. Whether there was a number left.
    fn step<W: Wait>(&self, rt: &W, alloc: Global, worker: &mut Worker<D, S>) -> bool
        requires worker { IsAtWork self.now.claims self.now.cache.now.lock.table.shared.table_id worker.old.draws worker.old.pass.place.seat worker.old.done.items (vec_capacity worker.old.done) }
        requires tasks { All (λ t. IsReady S.keys D.fits B.makes B.takes (task_view t)) self.now.tasks.now }
        requires done { All (IsDone (IsTrusted S.dir D.fits S.files) B.makes self.now.tasks.now) worker.old.done.items }
        ensures worker { IsAtWork self.now.claims self.now.cache.now.lock.table.shared.table_id worker.new.draws worker.new.pass.place.seat worker.new.done.items (vec_capacity worker.new.done) }
        ensures done { All (IsDone (IsTrusted S.dir D.fits S.files) B.makes self.now.tasks.now) worker.new.done.items }
    {
        self.gate.pass(worker.number, None, Stage::Claim);
        let Some(number) = self.claims.claim(&mut worker.draws) else {
            return false;
        };
        let turn = Turn {
            worker: worker.number,
            number,
        };
        let task = &self.tasks[number as usize];
        let pieces = self.answer(rt, alloc, &mut worker.pass, turn, task).ok();
        worker.done.push_reserved(Done { number, pieces });
        self.gate.pass(worker.number, Some(number), Stage::Done);
        true
    }

    /// Does tasks until no number is left.
    pub(crate) fn work<W: Wait>(&self, rt: &W, alloc: Global, worker: &mut Worker<D, S>)
        requires worker { IsAtWork self.now.claims self.now.cache.now.lock.table.shared.table_id worker.old.draws worker.old.pass.place.seat worker.old.done.items (vec_capacity worker.old.done) }
        requires tasks { All (λ t. IsReady S.keys D.fits B.makes B.takes (task_view t)) self.now.tasks.now }
        requires done { All (IsDone (IsTrusted S.dir D.fits S.files) B.makes self.now.tasks.now) worker.old.done.items }
        ensures worker { IsAtWork self.now.claims self.now.cache.now.lock.table.shared.table_id worker.new.draws worker.new.pass.place.seat worker.new.done.items (vec_capacity worker.new.done) }
        ensures done { All (IsDone (IsTrusted S.dir D.fits S.files) B.makes self.now.tasks.now) worker.new.done.items }
    {
        'draws: for _ in 0..=self.claims.limit {
            if !self.step(rt, alloc, worker) {
                return;
            }
        }
    }
}
