//! What the workers of a pool share, and how one of them answers a task.
ghost use Rattle.std.specs.Prelude.{◌≡◌, IfOk, IfSome, length};
ghost use Rattle.std.specs.List.{Contains};
ghost use mathlib.Core.List.{IsPrefix};
ghost use Rattle.cache_slot.specs.Places.{IsAt, seen_by};
ghost use Rattle.lto_task.specs.Tasks as tasks;
ghost use Rattle.lto_task.specs.Tasks.{IsWrittenTask, task_view};
ghost use Rattle.lto_task.specs.Units as units;
ghost use Rattle.lto_task.specs.Units.{IsUnit};
ghost use Rattle.back_pool.specs.Making.{FitsAsMade, IsAnswer, IsTrusted};

use crate::backend::Backend;
use cache_slot::{CachePass, Setting, SharedCache};
use claim_word::Claims;
use ir_tree::Rows;
use lto_outside::{CacheDisk, Gate, Stage};
use lto_task::{Piece, Task, pieces, task_text, unit_text, unit_text_is_one};
use std::alloc::{AllocError, Global};
use std::sync::Wait;

/// The tasks of a run, the word from which their numbers are drawn, and what each worker uses.
#[derive(Drop)]
pub(crate) struct Pool<'a, D: CacheDisk, S: Setting, B: Backend, G: Gate> {
    pub(crate) tasks: &'a [Task<'a>],
    pub(crate) claims: Claims,
    pub(crate) backend: &'a B,
    pub(crate) cache: &'a SharedCache<D, S>,
    pub(crate) gate: &'a G,
    ghost all: { claims.limit ≡ length tasks.now },
}

/// A worker's task: what it tells the gate.
#[derive(Clone, Copy)]
pub(crate) struct Turn {
    pub(crate) worker: u32,
    pub(crate) number: u32,
}

impl<'a, D: CacheDisk, S: Setting, B: Backend, G: Gate> Pool<'a, D, S, B, G> {
    /// The unit that the cache has of this key, where its text is a unit's.
    fn found<W: Wait>(
        &self,
        rt: &W,
        alloc: Global,
        pass: &mut CachePass<D, S>,
        key: &[u8],
    ) -> Result<Option<Rows<Piece>>, AllocError>
        requires { IsAt self.now.cache.now.lock.table.shared.table_id pass.old.place.seat }
        ensures pass { IsAt self.now.cache.now.lock.table.shared.table_id pass.new.place.seat }
        ensures unit { IfOk result (λ found. IfSome found IsUnit) }
        ensures fits { IfOk result (λ found. IfSome found (λ ps. IsTrusted S.dir D.fits S.files → ∥ D.fits key.now (units.unit_text ps) ∥₁)) }
    {
        match self.cache.lookup(rt, alloc, pass, key)? {
            Some(text) => pieces(alloc, text.as_slice()),
            None => Ok(None),
        }
    }

    /// The unit of the task, compiled, whose text is stored under this key.
    fn made<W: Wait>(
        &self,
        rt: &W,
        alloc: Global,
        pass: &mut CachePass<D, S>,
        turn: Turn,
        task: &Task,
        key: &[u8],
    ) -> Result<Rows<Piece>, AllocError>
        requires pass { IsAt self.now.cache.now.lock.table.shared.table_id pass.old.place.seat }
        requires key { (key.now ≡ tasks.task_text (task_view task.now)) × S.keys key.now }
        requires fits { FitsAsMade D.fits B.makes (task_view task.now) }
        requires takes { B.takes (task_view task.now) }
        ensures pass { IsAt self.now.cache.now.lock.table.shared.table_id pass.new.place.seat }
        ensures made { IfOk result (λ ps. IsUnit ps × B.makes (task_view task.now) ps) }
    {
        let pieces = self.backend.compile(alloc, task)?;
        let text = unit_text(alloc, pieces.as_slice())?;
        self.gate.pass(turn.worker, Some(turn.number), Stage::Keep);
        self.cache.store(rt, alloc, pass, key, text.as_slice())?;
        Ok(pieces)
    }

    /// The answer of the task: the unit that the cache has of its text, and else the one that is compiled.
    pub(crate) fn answer<W: Wait>(
        &self,
        rt: &W,
        alloc: Global,
        pass: &mut CachePass<D, S>,
        turn: Turn,
        task: &Task,
    ) -> Result<Rows<Piece>, AllocError>
        requires pass { IsAt self.now.cache.now.lock.table.shared.table_id pass.old.place.seat }
        requires key { S.keys (tasks.task_text (task_view task.now)) }
        requires fits { IsWrittenTask (task_view task.now) → FitsAsMade D.fits B.makes (task_view task.now) }
        requires takes { B.takes (task_view task.now) }
        ensures pass { IsAt self.now.cache.now.lock.table.shared.table_id pass.new.place.seat }
        ensures answer { IfOk result (IsAnswer (IsTrusted S.dir D.fits S.files) B.makes (task_view task.now)) }
    {
        let key = task_text(alloc, task)?;
        self.gate.pass(turn.worker, Some(turn.number), Stage::Look);
        match self.found(rt, alloc, pass, key.as_slice())? {
            Some(pieces) => {
                unit_text_is_one();
                Ok(pieces)
            }
            None => self.made(rt, alloc, pass, turn, task, key.as_slice()),
        }
    }
}
