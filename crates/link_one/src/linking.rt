//! From modules to text.
ghost use Rattle.std.specs.List.{AllZip};
ghost use Rattle.std.specs.Prelude.{◌≡◌, ◌≢◌, ◌<◌, ◌≤◌, ◌^◌, ℕ, List, All, IfOk, IfErr, length, map};
ghost use mathlib.Core.List.{IsPrefix};
ghost use Rattle.ir_tree.specs.Wholes.{IsVerified};
ghost use Rattle.cache_slot.specs.Places.{IsAt, seen_by};
ghost use Rattle.lto_fault.specs.declared.refusal.Refusal.TheVariants.{NoMemory};
ghost use Rattle.lto_task.specs.Tasks.{IsWrittenTask, TaskView, task_text};
ghost use Rattle.back_pool.specs.Making.{FitsAsMade, IsTrusted};
ghost use Rattle.combined_index.specs.Suffixes.{suffix_of};
ghost use Rattle.link_one.specs.Accepted.{Accepts};
ghost use Rattle.link_one.specs.Linking.{IsLinkOf, IsOnlyLinkOf};
ghost use Rattle.link_one.specs.ModuleUnits.{IsTaskInLink};
ghost use Rattle.link_one.specs.Refusing.{CanBeLinked, IsUnlinked};
ghost use Rattle.link_one.specs.TaskUnits.{IsTaskUnit};

use crate::laws::linked_is_one;
use crate::linked::linked;
use crate::linked_laws::{linked_refines, units_are_linked};
use crate::pool::Pool;
use crate::prepare::prepare;
use crate::task_laws::tasks_are_verified;
use cache_slot::{CachePass, Setting, SharedCache};
use ir_flow::AnalysedModule;
use ir_tree::Text;
use lto_fault::Refusal;
use lto_outside::{CacheDisk, Gate};
use std::alloc::Global;
use std::sync::Wait;
use std::thread::Threads;

/// That modules are sound, each as its type says.
fn all_verified(modules: &[AnalysedModule])
    ensures { All IsVerified modules.now }
{
    for verified in modules {
        verified.verified().module();
    }
}

/// The text of the linked module of these modules, which stand in these files, in command order. Each is compiled by itself, by one
/// of up to `jobs` workers, or its unit is found in the cache, which other calls may use meanwhile. Each has a suffix, that of its
/// file's bytes, which stands behind the names of its locals. Bodies are imported of functions of at most `import_limit` phis,
/// instructions and terminators that a module calls, and of smaller ones that those call, and inlined up to `inline_limit`.
///
/// Refused where the modules have no thin link (`thin_link`), and where two live symbols come to have one name in the linked
/// module; of several such names the one with the least bytes is told. Every link of files that are accepted as these modules
/// has this text, where the cache has no directory or its disk was honest. A number past 32 bits in a linked function is answered
/// as want of memory.
pub fn link<
    R: Threads + Wait + Sync,
    D: CacheDisk + Send,
    S: Setting + Send + Sync,
    G: Gate + Sync,
>(
    rt: &R,
    alloc: Global,
    jobs: u32,
    files: &[Text],
    suffixes: &[Text],
    modules: Vec<AnalysedModule>,
    exports: &[Text],
    import_limit: u32,
    inline_limit: u32,
    cache: &SharedCache<D, S>,
    pass: &mut CachePass<D, S>,
    gate: &G,
) -> Result<Text, Refusal>
    requires jobs { (1 ≤ jobs) × (jobs ≤ 64) }
    requires count { length modules.items < 2 ^ 32 }
    requires files { length files.now ≡ length modules.items }
    requires suffixes { length suffixes.now ≡ length modules.items }
    requires pass { IsAt cache.now.lock.table.shared.table_id pass.old.place.seat }
    requires keys { (t : TaskView) → IsTaskInLink exports.now import_limit inline_limit suffixes.now modules.items t → S.keys (task_text t) }
    requires fits { (t : TaskView) → IsTaskInLink exports.now import_limit inline_limit suffixes.now modules.items t → IsWrittenTask t → FitsAsMade D.fits IsTaskUnit t }
    ensures pass { IsAt cache.now.lock.table.shared.table_id pass.new.place.seat }
    ensures seen { IsPrefix (seen_by pass.old.place.seat) (seen_by pass.new.place.seat) }
    ensures linked { IfOk result (λ text. IsTrusted S.dir D.fits S.files → (bytes : List (List ℕ)) → AllZip Accepts bytes modules.items → suffixes.now ≡ map suffix_of bytes → ∥ IsLinkOf exports.now import_limit inline_limit bytes text ∥₁) }
    ensures only { IfOk result (λ text. IsTrusted S.dir D.fits S.files → (bytes : List (List ℕ)) → AllZip Accepts bytes modules.items → suffixes.now ≡ map suffix_of bytes → IsOnlyLinkOf exports.now import_limit inline_limit bytes text) }
    ensures linkable { IfOk result (λ _. CanBeLinked exports.now import_limit suffixes.now modules.items) }
    ensures refused { IfErr result (λ why. why ≢ NoMemory → IsUnlinked files.now exports.now import_limit suffixes.now modules.items why) }
{
    linked_is_one();
    linked_refines();
    tasks_are_verified();
    units_are_linked();
    all_verified(&modules);
    let prepared = prepare(alloc, files, suffixes, modules, exports, import_limit)?;
    let pool = Pool {
        rt,
        jobs,
        cache,
        gate,
    };
    let text = linked(
        alloc,
        &pool,
        pass,
        &prepared,
        suffixes,
        exports,
        inline_limit,
    );
    drop(prepared);
    match text {
        Ok(text) => Ok(text),
        Err(_) => Err(Refusal::NoMemory),
    }
}
