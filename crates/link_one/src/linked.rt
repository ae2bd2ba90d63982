//! The text of the linked module, from what stays of its modules.
ghost use Rattle.std.specs.Prelude.{◌<◌, ◌^◌, IfOk, length};
ghost use mathlib.Core.List.{IsPrefix};
ghost use Rattle.cache_slot.specs.Places.{IsAt, seen_by};
ghost use Rattle.lto_task.specs.Tasks.{TaskView};
ghost use Rattle.back_pool.specs.Making.{IsReady, IsTrusted};
ghost use Rattle.link_one.specs.Preparing.{AreTasksPrepared, AreUnitsPrepared, IsJoined, IsTaskPrepared};
ghost use Rattle.link_one.specs.TaskUnits.{HasVerifiedModules, IsTaskUnit};

use crate::pool::Pool;
use crate::prepare::Prepared;
use cache_slot::{CachePass, Setting};
use emit::emit;
use importer::tasks_of;
use ir_tree::{Rows, Text};
use lto_outside::{CacheDisk, Gate};
use lto_task::{Piece, Task};
use std::alloc::{AllocError, Global};
use std::sync::Wait;
use std::thread::Threads;

/// The tasks of the parts, in their order.
fn tasks_prepared<'a>(
    alloc: Global,
    prepared: &'a Prepared,
    suffixes: &'a [Text],
    exports: &'a [Text],
    inline_limit: u32,
) -> Result<Vec<Task<'a>>, AllocError>
    ensures { IfOk result (λ tasks. AreTasksPrepared exports.entry.now inline_limit suffixes.entry.now prepared.entry.now tasks.items) }
{
    tasks_of(
        alloc,
        &prepared.parts,
        prepared.index.symbols(),
        suffixes,
        &prepared.imports,
        &prepared.promoted,
        inline_limit,
        exports,
    )
}

/// The units as pieces: the task of each part, done by the pool.
fn compiled<
    R: Threads + Wait + Sync,
    D: CacheDisk + Send,
    S: Setting + Send + Sync,
    G: Gate + Sync,
>(
    alloc: Global,
    pool: &Pool<'_, R, D, S, G>,
    pass: &mut CachePass<D, S>,
    prepared: &Prepared,
    suffixes: &[Text],
    exports: &[Text],
    inline_limit: u32,
) -> Result<Vec<Rows<Piece>>, AllocError>
    requires count { length prepared.now.parts.items < 2 ^ 32 }
    requires pass { IsAt pool.now.cache.now.lock.table.shared.table_id pass.old.place.seat }
    requires ready { (t : TaskView) → IsTaskPrepared exports.now inline_limit suffixes.now prepared.now t → IsReady S.keys D.fits IsTaskUnit HasVerifiedModules t }
    ensures pass { IsAt pool.now.cache.now.lock.table.shared.table_id pass.new.place.seat }
    ensures seen { IsPrefix (seen_by pass.old.place.seat) (seen_by pass.new.place.seat) }
    ensures units { IfOk result (λ units. IsTrusted S.dir D.fits S.files → ∥ AreUnitsPrepared exports.now inline_limit suffixes.now prepared.now units.items ∥₁) }
{
    let tasks = tasks_prepared(alloc, prepared, suffixes, exports, inline_limit)?;
    pool.units(alloc, pass, &tasks)
}

/// The text of the linked module of what was prepared, compiled by the pool.
pub(crate) fn linked<
    R: Threads + Wait + Sync,
    D: CacheDisk + Send,
    S: Setting + Send + Sync,
    G: Gate + Sync,
>(
    alloc: Global,
    pool: &Pool<'_, R, D, S, G>,
    pass: &mut CachePass<D, S>,
    prepared: &Prepared,
    suffixes: &[Text],
    exports: &[Text],
    inline_limit: u32,
) -> Result<Text, AllocError>
    requires count { length prepared.now.parts.items < 2 ^ 32 }
    requires pass { IsAt pool.now.cache.now.lock.table.shared.table_id pass.old.place.seat }
    requires ready { (t : TaskView) → IsTaskPrepared exports.now inline_limit suffixes.now prepared.now t → IsReady S.keys D.fits IsTaskUnit HasVerifiedModules t }
    ensures pass { IsAt pool.now.cache.now.lock.table.shared.table_id pass.new.place.seat }
    ensures seen { IsPrefix (seen_by pass.old.place.seat) (seen_by pass.new.place.seat) }
    ensures joined { IfOk result (λ text. IsTrusted S.dir D.fits S.files → ∥ IsJoined exports.now inline_limit suffixes.now prepared.now text ∥₁) }
{
    let pieces = compiled(alloc, pool, pass, prepared, suffixes, exports, inline_limit)?;
    emit(alloc, &pieces, prepared.header.as_slice(), exports)
}
