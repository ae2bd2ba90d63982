//! The link: all files are fetched and read, their modules are linked over a cache, and the text is put.
ghost use Rattle.std.specs.List.{AllZip};
ghost use Rattle.std.specs.Prelude.{◌≡◌, ◌≢◌, ◌≤◌, ◌<◌, ◌^◌, ◌↔◌, ◌∷◌, ℕ, [], true, false, All, IfErr, IfOk, List, OnOk, length, map};
ghost use Rattle.back_pool.specs.Making.{FitsAsMade, IsTrusted};
ghost use Rattle.cache_slot.specs.Decoded.{decoded};
ghost use Rattle.cache_slot.specs.Directory.{dir_of};
ghost use Rattle.cache_slot.specs.Places.{IsAt};
ghost use Rattle.lto_words.specs.Fetching.{IsShort};
ghost use Rattle.ir_tree.specs.Names.{AllBytes};
ghost use Rattle.link_one.specs.Linking.{IsLinkOf, IsOnlyLinkOf};
ghost use Rattle.link_one.specs.ModuleUnits.{IsTaskInLink};
ghost use Rattle.link_one.specs.Refusing.{CanBeLinked, IsUnlinked};
ghost use Rattle.link_one.specs.TaskUnits.{IsTaskUnit};
ghost use Rattle.lto_fault.specs.declared.refusal.Refusal.TheVariants.{NoMemory, WriteFault};
ghost use Rattle.lto_outside.specs.Calls.{Put};
ghost use Rattle.lto_outside.specs.Cause.{Rose};
ghost use Rattle.lto_outside.specs.Honest.{IsHonest};
ghost use Rattle.lto_outside.specs.Seen.{files_seen};
ghost use Rattle.lto_task.specs.Tasks.{IsWrittenTask, TaskView};
ghost use Rattle.thin_link.specs.Refusing.{IsRefused};
ghost use Rattle.run_program.specs.Causes.{Because, Comes, never};
ghost use Rattle.thinlto_main.specs.Honest.{HonestEntry, IsTrustedBy};
ghost use Rattle.thinlto_main.specs.Keys.{DiskKept, IsKeyOf, IsKeyOfFiles};
ghost use Rattle.thinlto_main.specs.Linking.{HasThinLink, IsLinkable, IsMadeIf, IsUnlinkable, linking, suffixes_of};
ghost use Rattle.thinlto_main.specs.Modules.{FirstBad, IsRead, bytes_of};

use crate::cache::{Cached, directory};
use crate::entry::Ended;
use crate::modules::{read_all, slice_of, suffixes, texts, unfetched};
use crate::tasks::tasks_are_spelled;
use back_end::made_is_better;
use cache_slot::{CachePass, Setting, SharedCache};
use emit::emission_is_one;
use ir_flow::AnalysedModule;
use ir_round_trip::{
    read_modules_are_numbered, tasks_with_one_text_are_one, text_order_is_numbered,
    verified_modules_are_read,
};
use ir_tree::{Text, Verified};
use link_one::{accepted_is_not_refused, linked_is_verified, tasks_are_verified, unlinked_is_one};
use lto_fault::Refusal;
use lto_outside::{CacheDisk, Files, Gate};
use lto_task::all_bytes;
use lto_words::{FileName, LinkOptions, fetch_all};
use merge_meaning::live_by_module;
use std::alloc::Global;
use std::marker::Brand;
use std::sync::Wait;
use std::thread::Threads;
use thin_link::thin_link;

/// That the modules have a thin link, or why they have none, in which files have these names.
fn thinly_linked(
    alloc: Global,
    files: &[Text],
    modules: &[Verified],
    exports: &[Text],
    import_limit: u32,
) -> Result<(), Refusal>
    requires { length files.now ≡ length modules.now }
    ensures done { OnOk result (HasThinLink modules.now exports.now import_limit) }
    ensures refused { IfErr result (λ why. why ≢ NoMemory → IsRefused files.now modules.now exports.now why) }
{
    thin_link(alloc, files, modules, exports, import_limit)?;
    Ok(())
}

/// That the modules have a thin link, or why they have none.
pub(crate) fn decided(
    alloc: Global,
    names: &[FileName],
    modules: &[Verified],
    exports: &[Text],
    import_limit: u32,
) -> Result<(), Refusal>
    requires { length names.now ≡ length modules.now }
    ensures done { OnOk result (HasThinLink modules.now exports.now import_limit) }
    ensures because { IfErr result (Because (record never { unlinked = IsRefused names.now modules.now exports.now; memory = Unit {0} })) }
{
    let Ok(files) = texts(alloc, names) else {
        return Err(Refusal::NoMemory);
    };
    thinly_linked(alloc, files.as_slice(), modules, exports, import_limit)
}

/// The text of the linked module of these, compiled over this cache, or why they aren't linked.
fn text<R: Threads + Wait + Sync, D: CacheDisk + Send, S: Setting + Send + Sync, G: Gate + Sync>(
    rt: &R,
    alloc: Global,
    options: &LinkOptions,
    names: &[FileName],
    given: &[Option<Text>],
    modules: Vec<AnalysedModule>,
    cache: &SharedCache<D, S>,
    pass: &mut CachePass<D, S>,
    gate: &G,
) -> Result<Text, Refusal>
    requires each { length names.now ≡ length given.now }
    requires count { length modules.items < 2 ^ 32 }
    requires read { AllZip IsRead given.now modules.items }
    requires pass { IsAt cache.now.lock.table.shared.table_id pass.old.place.seat }
    requires keys { (key : List ℕ) → IsKeyOf options.now given.now key → S.keys key }
    requires fits { (t : TaskView) → IsTaskInLink options.now.exports options.now.import_limit options.now.inline_limit (suffixes_of given.now) modules.items t → IsWrittenTask t → FitsAsMade D.fits IsTaskUnit t }
    ensures pass { IsAt cache.now.lock.table.shared.table_id pass.new.place.seat }
    ensures linkable { IfOk result (λ _. CanBeLinked options.now.exports options.now.import_limit (suffixes_of given.now) modules.items) }
    ensures done { IfOk result (λ text. IsTrusted S.dir D.fits S.files → ∥ IsLinkOf options.now.exports options.now.import_limit options.now.inline_limit (map bytes_of given.now) text ∥₁) }
    ensures only { IfOk result (λ text. IsTrusted S.dir D.fits S.files → IsOnlyLinkOf options.now.exports options.now.import_limit options.now.inline_limit (map bytes_of given.now) text) }
    ensures because { IfErr result (Because (record never { unlinked = IsUnlinked names.now options.now.exports options.now.import_limit (suffixes_of given.now) modules.items; memory = Unit {0} })) }
{
    let Ok(files) = texts(alloc, names) else {
        return Err(Refusal::NoMemory);
    };
    let Ok(suffixes) = suffixes(alloc, given) else {
        return Err(Refusal::NoMemory);
    };
    link_one::link(
        rt,
        alloc,
        options.jobs.clamp(1, 64),
        files.as_slice(),
        suffixes.as_slice(),
        modules,
        options.exports.as_slice(),
        options.import_limit,
        options.inline_limit,
        cache,
        pass,
        gate,
    )
}

/// That what files gave is bytes.
fn all_given_bytes(given: &[Option<Text>])
    ensures { All AllBytes (map bytes_of given.now) }
{
    for bytes in given {
        all_bytes(slice_of(bytes));
    }
}

/// What a link makes of what these files gave, over this cache.
pub(crate) fn made<
    R: Threads + Wait + Sync,
    D: CacheDisk + Send,
    S: Setting + Send + Sync,
    G: Gate + Sync,
>(
    rt: &R,
    alloc: Global,
    options: &LinkOptions,
    names: &[FileName],
    given: &[Option<Text>],
    cache: &SharedCache<D, S>,
    pass: &mut CachePass<D, S>,
    gate: &G,
) -> Result<Text, Refusal>
    requires each { length given.now ≡ length names.now }
    requires short { All IsShort given.now }
    requires pass { IsAt cache.now.lock.table.shared.table_id pass.old.place.seat }
    requires meaning { (key text : List ℕ) → D.fits key text ↔ HonestEntry key text }
    requires keys { (key : List ℕ) → IsKeyOf options.now given.now key → S.keys key }
    ensures pass { IsAt cache.now.lock.table.shared.table_id pass.new.place.seat }
    ensures linkable { IfOk result (λ _. IsLinkable options.now names.now given.now) }
    ensures made { IfOk result (IsMadeIf (IsTrusted S.dir D.fits S.files) options.now given.now) }
    ensures because { IfErr result (Because (record never { refused = FirstBad names.now given.now; unlinked = IsUnlinkable options.now names.now given.now; memory = Unit {0} })) }
{
    accepted_is_not_refused();
    emission_is_one();
    linked_is_verified();
    live_by_module();
    made_is_better();
    read_modules_are_numbered();
    text_order_is_numbered();
    verified_modules_are_read();
    tasks_are_spelled();
    tasks_are_verified();
    tasks_with_one_text_are_one();
    unlinked_is_one();
    all_given_bytes(given);
    if names.len() > u32::MAX as usize {
        return Err(Refusal::NoMemory);
    }
    let modules = match read_all(alloc, names, given) {
        Ok(modules) => modules,
        Err(why) => return Err(why),
    };
    text(
        rt,
        alloc,
        options,
        names,
        given,
        modules.into_vec(),
        cache,
        pass,
        gate,
    )
}

/// The same over a new cache, which this is the disk and the directory of.
fn made_in<R: Threads + Wait + Sync, D: CacheDisk + Send, S: Setting + Send + Sync, G: Gate + Sync>(
    rt: &R,
    alloc: Global,
    options: &LinkOptions,
    names: &[FileName],
    given: &[Option<Text>],
    disk: D,
    dir: Option<String>,
    gate: &G,
) -> Cached<Text, D>
    requires each { length given.now ≡ length names.now }
    requires short { All IsShort given.now }
    requires meaning { (key text : List ℕ) → D.fits key text ↔ HonestEntry key text }
    requires dir { S.dir ≡ dir_of dir }
    requires faults { S.faults ≡ D.faults disk }
    requires files { S.files ≡ D.held disk }
    requires keys { (key : List ℕ) → IsKeyOf options.now given.now key → S.keys key }
    ensures linkable { IfOk result.answer (λ _. IsLinkable options.now names.now given.now) }
    ensures made { IfOk result.answer (IsMadeIf (IsTrusted S.dir D.fits S.files) options.now given.now) }
    ensures because { IfErr result.answer (Because (record never { refused = FirstBad names.now given.now; unlinked = IsUnlinkable options.now names.now given.now; memory = Unit {0} })) }
    ensures disk { ∥ DiskKept D.fits S.keys S.dir (D.held disk) (D.held result.disk) ∥₁ }
{
    match SharedCache::<D, S>::new(alloc, disk, dir) {
        Ok((cache, mut pass)) => {
            let answer = made(rt, alloc, options, names, given, &cache, &mut pass, gate);
            let disk = cache.close(rt, pass);
            Cached { answer, disk }
        }
        Err(refused) => Cached {
            answer: Err(Refusal::NoMemory),
            disk: refused.disk,
        },
    }
}

/// The same over the cache that the options ask for, on this disk.
fn made_on<R: Threads + Wait + Sync, D: CacheDisk + Send, G: Gate + Sync>(
    rt: &R,
    alloc: Global,
    options: &LinkOptions,
    names: &[FileName],
    given: &[Option<Text>],
    disk: D,
    gate: &G,
) -> Cached<Text, D>
    requires each { length given.now ≡ length names.now }
    requires short { All IsShort given.now }
    requires meaning { (key text : List ℕ) → D.fits key text ↔ HonestEntry key text }
    ensures linkable { IfOk result.answer (λ _. IsLinkable options.now names.now given.now) }
    ensures made { IfOk result.answer (IsMadeIf (IsTrustedBy options.now (IsHonest decoded D.fits (D.held disk))) options.now given.now) }
    ensures because { IfErr result.answer (Because (record never { refused = FirstBad names.now given.now; unlinked = IsUnlinkable options.now names.now given.now; memory = Unit {0} })) }
    ensures disk { ∥ DiskKept D.fits (IsKeyOf options.now given.now) options.now.cache (D.held disk) (D.held result.disk) ∥₁ }
{
    match directory(alloc, options) {
        Ok(dir) => { made_in::<R, D, Brand, G>(rt, alloc, options, names, given, disk, dir, gate) }
        Err(_) => Cached {
            answer: Err(Refusal::NoMemory),
            disk,
        },
    }
}

/// Puts what was made, if it was.
fn put<F: Files>(files: &mut F, out: FileName, text: &[u8]) -> Result<(), Refusal>
    ensures done { OnOk result (F.did files.old (Put out text.now true ∷ []) files.new) }
    ensures failed { IfErr result (λ why. (why ≡ WriteFault out) × F.did files.old (Put out text.now false ∷ []) files.new × Rose (F.faults files.old) (F.faults files.new)) }
    ensures later { F.faults files.old ≤ F.faults files.new }
{
    match files.put(out.as_str(), text) {
        Ok(()) => Ok(()),
        Err(_) => Err(Refusal::WriteFault {
            name: out.into_text(),
        }),
    }
}

/// Does a link, over the cache that the options ask for on this disk.
pub(crate) fn link<R: Threads + Wait + Sync, F: Files, D: CacheDisk + Send, G: Gate + Sync>(
    rt: &R,
    alloc: Global,
    files: &mut F,
    disk: D,
    gate: &G,
    options: &LinkOptions,
    out: FileName,
    names: &[FileName],
) -> Ended<D>
    requires meaning { (key text : List ℕ) → D.fits key text ↔ HonestEntry key text }
    ensures answer { Comes (linking options.now out names.now (IsTrustedBy options.now (IsHonest decoded D.fits (D.held disk))) (files_seen F.did F.held F.faults files.old files.new)) result.status }
    ensures disk { ∥ DiskKept D.fits (IsKeyOfFiles options.now names.now (λ calls. F.did files.old calls files.new)) options.now.cache (D.held disk) (D.held result.disk) ∥₁ }
    ensures later { F.faults files.old ≤ F.faults files.new }
{
    let given = match fetch_all(alloc, files, names) {
        Ok(given) => given,
        Err(error) => {
            return Ended {
                status: Err(unfetched(error)),
                disk,
            };
        }
    };
    let Cached { answer, disk } = made_on(rt, alloc, options, names, given.as_slice(), disk, gate);
    match answer {
        Ok(text) => Ended {
            status: put(files, out, text.as_slice()),
            disk,
        },
        Err(why) => Ended {
            status: Err(why),
            disk,
        },
    }
}
