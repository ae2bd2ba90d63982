//! The batch: its list file is fetched and judged, all files of its links are fetched, each link is made over one cache, and their
//! texts are put.
ghost use Rattle.std.specs.List.{AllZip};
ghost use Rattle.std.specs.Prelude.{◌≡◌, ◌≤◌, ◌↔◌, ℕ, IfErr, IfOk, List, OnOk, length};
ghost use Rattle.back_pool.specs.Making.{IsTrusted};
ghost use Rattle.cache_slot.specs.Decoded.{decoded};
ghost use Rattle.cache_slot.specs.Directory.{dir_of};
ghost use Rattle.cache_slot.specs.Places.{IsAt};
ghost use Rattle.lto_words.specs.Links.{GivenFor, PutFailed, puts};
ghost use Rattle.lto_words.specs.Listing.{FirstBadLine, IsList};
ghost use Rattle.lto_fault.specs.declared.kind.RefusalKind.TheVariants.{BadLine};
ghost use Rattle.lto_fault.specs.declared.refusal.Refusal.TheVariants.{WriteFault};
ghost use Rattle.lto_outside.specs.Cause.{Rose};
ghost use Rattle.lto_outside.specs.Honest.{IsHonest};
ghost use Rattle.lto_outside.specs.Seen.{files_seen};
ghost use Rattle.run_program.specs.Causes.{Because, Comes, never};
ghost use Rattle.thinlto_main.specs.Batching.{AreGiven, AreLinkable, FirstLink, HasListed, batching, fetching, listing};
ghost use Rattle.thinlto_main.specs.Honest.{HonestEntry, IsTrustedBy};
ghost use Rattle.thinlto_main.specs.Keys.{DiskKept, IsKeyAmong, IsKeyOf, IsKeyOfList};
ghost use Rattle.thinlto_main.specs.Linking.{IsLinkable, IsMadeIf, IsUnlinkable};
ghost use Rattle.thinlto_main.specs.Modules.{FirstBad};

use crate::cache::{Cached, directory};
use crate::entry::Ended;
use crate::link::made;
use crate::modules::{refused, unfetched};
use cache_slot::{CachePass, Setting, SharedCache};
use ir_tree::{FaultKind, Rows, Text};
use lto_fault::{Refusal, RefusalKind};
use lto_outside::{CacheDisk, Files, Gate};
use lto_words::{
    FileName, LinkOptions, ListError, ListedLink, fetch_links, fetch_one, links, put_all,
};
use std::alloc::Global;
use std::marker::Brand;
use std::sync::Wait;
use std::thread::Threads;

/// The links that this file lists, of which these are the bytes.
fn listed(alloc: Global, list: &FileName, bytes: &[u8]) -> Result<Rows<ListedLink>, Refusal>
    ensures listed { IfOk result (λ links. IsList bytes.now links) }
    ensures because { IfErr result (Because (record never { refused = λ file line kind. (file ≡ list.now) × FirstBadLine bytes.now line × (kind ≡ BadLine); memory = Unit {0} })) }
{
    match links(alloc, bytes) {
        Ok(links) => Ok(links),
        Err(ListError::Fault(bad)) => Err(refused(alloc, list, bad.line, RefusalKind::BadLine)),
        Err(ListError::NoMemory) => Err(Refusal::NoMemory),
    }
}

/// The links of the list file, which is fetched.
fn links_of<F: Files>(
    alloc: Global,
    files: &mut F,
    list: &FileName,
) -> Result<Rows<ListedLink>, Refusal>
    ensures listed { IfOk result (λ links. HasListed list.now links (λ calls. F.did files.old calls files.new)) }
    ensures because { IfErr result (Because (listing list.now (files_seen F.did F.held F.faults files.old files.new))) }
    ensures later { F.faults files.old ≤ F.faults files.new }
{
    match fetch_one(alloc, files, list) {
        Ok(Some(bytes)) => listed(alloc, list, bytes.as_slice()),
        Ok(None) => Err(refused(alloc, list, 0, RefusalKind::Unread(FaultKind::Limit))),
        Err(error) => Err(unfetched(error)),
    }
}

/// The text of a link, whose files gave this, made over this cache.
fn made_of<R: Threads + Wait + Sync, D: CacheDisk + Send, S: Setting + Send + Sync, G: Gate + Sync>(
    rt: &R,
    alloc: Global,
    options: &LinkOptions,
    link: &ListedLink,
    given: &Rows<Option<Text>>,
    cache: &SharedCache<D, S>,
    pass: &mut CachePass<D, S>,
    gate: &G,
) -> Result<Text, Refusal>
    requires given { GivenFor link.now given.now }
    requires pass { IsAt cache.now.lock.table.shared.table_id pass.old.place.seat }
    requires meaning { (key text : List ℕ) → D.fits key text ↔ HonestEntry key text }
    requires keys { (key : List ℕ) → IsKeyOf options.now given.now key → S.keys key }
    ensures pass { IsAt cache.now.lock.table.shared.table_id pass.new.place.seat }
    ensures linkable { IfOk result (λ _. IsLinkable options.now link.now.files given.now) }
    ensures made { IfOk result (IsMadeIf (IsTrusted S.dir D.fits S.files) options.now given.now) }
    ensures because { IfErr result (Because (record never { refused = FirstBad link.now.files given.now; unlinked = IsUnlinkable options.now link.now.files given.now; memory = Unit {0} })) }
{
    let names = link.files.as_slice();
    made(
        rt,
        alloc,
        options,
        names,
        given.as_slice(),
        cache,
        pass,
        gate,
    )
}

/// The text of each link, up to the first that isn't made, each made over this cache.
fn all_made<
    R: Threads + Wait + Sync,
    D: CacheDisk + Send,
    S: Setting + Send + Sync,
    G: Gate + Sync,
>(
    rt: &R,
    alloc: Global,
    options: &LinkOptions,
    links: &[ListedLink],
    given: &[Rows<Option<Text>>],
    cache: &SharedCache<D, S>,
    pass: &mut CachePass<D, S>,
    gate: &G,
) -> Result<Rows<Text>, Refusal>
    requires each { AllZip GivenFor links.now given.now }
    requires pass { IsAt cache.now.lock.table.shared.table_id pass.old.place.seat }
    requires meaning { (key text : List ℕ) → D.fits key text ↔ HonestEntry key text }
    requires keys { (key : List ℕ) → IsKeyAmong options.now given.now key → S.keys key }
    ensures pass { IsAt cache.now.lock.table.shared.table_id pass.new.place.seat }
    ensures linkable { IfOk result (λ _. AreLinkable options.now links.now given.now) }
    ensures made { IfOk result (AllZip (IsMadeIf (IsTrusted S.dir D.fits S.files) options.now) given.now) }
    ensures because { IfErr result (Because (record never { refused = λ file line kind. FirstLink options.now (λ link bytes. FirstBad link.files bytes file line kind) links.now given.now; unlinked = λ why. FirstLink options.now (λ link bytes. IsUnlinkable options.now link.files bytes why) links.now given.now; memory = Unit {0} })) }
{
    let mut texts = Rows::new(alloc);
    for (at, link) in links.iter().enumerate() {
        let text = match made_of(rt, alloc, options, link, &given[at], cache, pass, gate) {
            Ok(text) => text,
            Err(why) => return Err(why),
        };
        let Ok(()) = texts.push(text) else {
            return Err(Refusal::NoMemory);
        };
    }
    Ok(texts)
}

/// The same over a new cache, which this is the disk and the directory of.
fn all_made_in<
    R: Threads + Wait + Sync,
    D: CacheDisk + Send,
    S: Setting + Send + Sync,
    G: Gate + Sync,
>(
    rt: &R,
    alloc: Global,
    options: &LinkOptions,
    links: &[ListedLink],
    given: &[Rows<Option<Text>>],
    disk: D,
    dir: Option<String>,
    gate: &G,
) -> Cached<Rows<Text>, D>
    requires each { AllZip GivenFor links.now given.now }
    requires meaning { (key text : List ℕ) → D.fits key text ↔ HonestEntry key text }
    requires dir { S.dir ≡ dir_of dir }
    requires faults { S.faults ≡ D.faults disk }
    requires files { S.files ≡ D.held disk }
    requires keys { (key : List ℕ) → IsKeyAmong options.now given.now key → S.keys key }
    ensures linkable { IfOk result.answer (λ _. AreLinkable options.now links.now given.now) }
    ensures made { IfOk result.answer (AllZip (IsMadeIf (IsTrusted S.dir D.fits S.files) options.now) given.now) }
    ensures because { IfErr result.answer (Because (record never { refused = λ file line kind. FirstLink options.now (λ link bytes. FirstBad link.files bytes file line kind) links.now given.now; unlinked = λ why. FirstLink options.now (λ link bytes. IsUnlinkable options.now link.files bytes why) links.now given.now; memory = Unit {0} })) }
    ensures disk { ∥ DiskKept D.fits S.keys S.dir (D.held disk) (D.held result.disk) ∥₁ }
{
    match SharedCache::<D, S>::new(alloc, disk, dir) {
        Ok((cache, mut pass)) => {
            let answer = all_made(rt, alloc, options, links, given, &cache, &mut pass, gate);
            let disk = cache.close(rt, pass);
            Cached { answer, disk }
        }
        Err(refused) => Cached {
            answer: Err(Refusal::NoMemory),
            disk: refused.disk,
        },
    }
}

/// The same over the cache that the options ask for, on this disk.
fn all_made_on<R: Threads + Wait + Sync, D: CacheDisk + Send, G: Gate + Sync>(
    rt: &R,
    alloc: Global,
    options: &LinkOptions,
    links: &[ListedLink],
    given: &[Rows<Option<Text>>],
    disk: D,
    gate: &G,
) -> Cached<Rows<Text>, D>
    requires each { AllZip GivenFor links.now given.now }
    requires meaning { (key text : List ℕ) → D.fits key text ↔ HonestEntry key text }
    ensures linkable { IfOk result.answer (λ _. AreLinkable options.now links.now given.now) }
    ensures made { IfOk result.answer (AllZip (IsMadeIf (IsTrustedBy options.now (IsHonest decoded D.fits (D.held disk))) options.now) given.now) }
    ensures because { IfErr result.answer (Because (record never { refused = λ file line kind. FirstLink options.now (λ link bytes. FirstBad link.files bytes file line kind) links.now given.now; unlinked = λ why. FirstLink options.now (λ link bytes. IsUnlinkable options.now link.files bytes why) links.now given.now; memory = Unit {0} })) }
    ensures disk { ∥ DiskKept D.fits (IsKeyAmong options.now given.now) options.now.cache (D.held disk) (D.held result.disk) ∥₁ }
{
    match directory(alloc, options) {
        Ok(dir) => {
            all_made_in::<R, D, Brand, G>(rt, alloc, options, links, given, disk, dir, gate)
        }
        Err(_) => Cached {
            answer: Err(Refusal::NoMemory),
            disk,
        },
    }
}

/// The links of a list file, and what their files gave.
#[derive(Drop)]
struct Given {
    links: Rows<ListedLink>,
    given: Rows<Rows<Option<Text>>>,
}

/// The list file is fetched and judged, and then the files of its links are fetched.
fn given_of<F: Files>(alloc: Global, files: &mut F, list: &FileName) -> Result<Given, Refusal>
    ensures given { IfOk result (λ g. AreGiven list.now g.links g.given (λ calls. F.did files.old calls files.new)) }
    ensures because { IfErr result (Because (fetching list.now (files_seen F.did F.held F.faults files.old files.new))) }
    ensures later { F.faults files.old ≤ F.faults files.new }
{
    let links = match links_of(alloc, files, list) {
        Ok(links) => links,
        Err(why) => return Err(why),
    };
    match fetch_links(alloc, files, links.as_slice()) {
        Ok(given) => Ok(Given { links, given }),
        Err(error) => Err(unfetched(error)),
    }
}

/// Puts what was made of the links, in their order.
fn put<F: Files>(files: &mut F, links: Rows<ListedLink>, texts: &[Text]) -> Result<(), Refusal>
    requires { length links ≡ length texts.now }
    ensures done { OnOk result (F.did files.old (puts links texts.now) files.new) }
    ensures failed { IfErr result (λ why. (at : ℕ) × ((f : PutFailed (λ calls. F.did files.old calls files.new) links texts.now at) × (why ≡ WriteFault f.link.out)) × Rose (F.faults files.old) (F.faults files.new)) }
    ensures later { F.faults files.old ≤ F.faults files.new }
{
    match put_all(files, links.as_slice(), texts) {
        Ok(()) => Ok(()),
        Err(at) => Err(Refusal::WriteFault {
            name: links.into_vec().swap_remove(at).out.into_text(),
        }),
    }
}

/// Does a batch, over the cache that the options ask for on this disk.
pub(crate) fn batch<R: Threads + Wait + Sync, F: Files, D: CacheDisk + Send, G: Gate + Sync>(
    rt: &R,
    alloc: Global,
    files: &mut F,
    disk: D,
    gate: &G,
    options: &LinkOptions,
    list: &FileName,
) -> Ended<D>
    requires meaning { (key text : List ℕ) → D.fits key text ↔ HonestEntry key text }
    ensures answer { Comes (batching options.now list.now (IsTrustedBy options.now (IsHonest decoded D.fits (D.held disk))) (files_seen F.did F.held F.faults files.old files.new)) result.status }
    ensures disk { ∥ DiskKept D.fits (IsKeyOfList options.now list.now (λ calls. F.did files.old calls files.new)) options.now.cache (D.held disk) (D.held result.disk) ∥₁ }
    ensures later { F.faults files.old ≤ F.faults files.new }
{
    let Given { links, given } = match given_of(alloc, files, list) {
        Ok(given) => given,
        Err(why) => {
            return Ended {
                status: Err(why),
                disk,
            };
        }
    };
    let Cached { answer, disk } = all_made_on(
        rt,
        alloc,
        options,
        links.as_slice(),
        given.as_slice(),
        disk,
        gate,
    );
    match answer {
        Ok(texts) => Ended {
            status: put(files, links, texts.as_slice()),
            disk,
        },
        Err(why) => Ended {
            status: Err(why),
            disk,
        },
    }
}
