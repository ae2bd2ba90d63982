//! The core as a value: its start, and its step by one event.
ghost use Rattle.std.specs.Prelude.{◌≡◌, ℕ, ◌<◌, List, ◌++◌, map, length, slice_get, Some, IfOk, OnOk, OnErr, IfErr, option_to_list, IsTrue, ◌↔◌};
ghost use Rattle.std.specs.Option.{option_copied};
ghost use Rattle.link_core.specs.declared.event.DiskPair.{DiskPair};
ghost use Rattle.link_core.specs.declared.event.Phase.{Phase};
ghost use Rattle.link_core.specs.Machine.{results_at, start, stepped, with_entry, saved, settled, key_at};
ghost use Rattle.link_core.specs.Views.{parts_of};
ghost use Rattle.link_core.specs.Refusals.{Exists, IsRefused, CannotAct};

use crate::copies::{copied_pair, copied_pairs, not_enabled};
use crate::event::{Act, CoreLink, DiskPair, Event, StepError};
use crate::link::Link;
use crate::lookup::text_of;
use ir_tree::Text;
use std::alloc::{AllocError, Global};
use std::marker::Model;

/// The links, the entries that they share, and the pairs of their disk.
#[derive(Drop)]
pub struct Core {
    entries: Vec<DiskPair>,
    disk: Vec<DiskPair>,
    links: Vec<Link>,
}

impl Model for Core {
    ghost use Rattle.link_core.specs.Machine.{CoreState};

    ghost Value = { CoreState };

    ghost view = { λ c. record { entries = c.entries.items; disk = c.disk.items; links = c.links.items } };
}

impl Core {
    /// The core before its first event: no entry, no result, and all workers idle.
    pub fn start(alloc: Global, links: &[CoreLink], disk: &[DiskPair]) -> Result<Core, AllocError>
        ensures { IfOk result (λ core. core ≡ start (map parts_of links.now) disk.now) }
    {
        let mut opened = Vec::with_capacity(alloc, links.len())?;
        for link in links {
            opened.push(Link::open(alloc, link)?)?;
        }
        Ok(Core {
            entries: Vec::new(alloc),
            disk: copied_pairs(alloc, disk)?,
            links: opened,
        })
    }

    /// The pairs that workers have kept, in the order in which they were kept.
    pub fn entries(&self) -> &[DiskPair]
        ensures { result.now ≡ self.now.entries }
    {
        &self.entries
    }

    /// The results of a link by number, as far as they are there, if there is such a link.
    pub fn results(&self, link: u32) -> Option<&[Option<Text>]>
        ensures { option_copied result ≡ results_at self.now link }
    {
        let link = self.links.get(link as usize)?;
        Some(link.results())
    }

    /// The event's link and worker exist.
    pub fn has(&self, event: &Event) -> bool
        ensures { IsTrue result ↔ Exists self.now event.now }
    {
        let Some(link) = self.links.get(event.link as usize) else {
            return false;
        };
        (event.worker as usize) < link.workers()
    }

    /// The event's act, if it is enabled from its worker's phase; the error carries that phase.
    pub fn step(&mut self, alloc: Global, event: &Event) -> Result<(), StepError>
        requires { Exists self.old event.now }
        ensures ok { OnOk result (stepped self.old event.now ≡ Some self.new) }
        ensures refused { IfErr result (IsRefused self.old event.now) }
        ensures same { OnErr result (self.new ≡ self.old) }
    {
        let link = &mut self.links[event.link as usize];
        let worker = event.worker as usize;
        match &event.act {
            Act::Claim => link.claim(alloc, worker),
            Act::Look { given } => link.look(alloc, &self.entries, &self.disk, worker, *given),
            Act::Compile(text) => link.compile(alloc, worker, text),
            Act::Keep { taken } => {
                keep(
                    alloc,
                    &mut self.entries,
                    &mut self.disk,
                    link,
                    worker,
                    *taken,
                )
            }
        }
    }
}

/// A made text becomes its number's result, an entry where its key has none, and the disk's where
/// the disk takes it.
fn keep(
    alloc: Global,
    entries: &mut Vec<DiskPair>,
    disk: &mut Vec<DiskPair>,
    link: &mut Link,
    worker: usize,
    taken: bool,
) -> Result<(), StepError>
    requires { worker < length link.old.phases }
    ensures ok { OnOk result ((k : ℕ) × (text : _) × (slice_get link.old.phases worker ≡ Some (Phase.Made k text)) × (link.new ≡ settled link.old worker k text) × (entries.new.items ≡ with_entry entries.old.items (key_at link.old.keys k) text) × (disk.new.items ≡ saved disk.old.items (key_at link.old.keys k) text taken)) }
    ensures refused { IfErr result (CannotAct (slice_get link.old.phases worker) (Act.Keep taken)) }
    ensures same { OnErr result ((link.new ≡ link.old) × (entries.new.items ≡ entries.old.items) × (disk.new.items ≡ disk.old.items)) }
{
    let Some((key, text)) = link.made(worker) else {
        return Err(not_enabled(alloc, link.phase(worker)));
    };
    let entry = new_entry(alloc, entries, key.as_slice(), text.as_slice())?;
    let pair = taken_pair(alloc, taken, key.as_slice(), text.as_slice())?;
    entries.reserve(1)?;
    save(disk, pair)?;
    if let Some(entry) = entry {
        entries.push_reserved(entry);
    }
    link.finish(worker);
    Ok(())
}

/// The pair that the list of entries lacks, if it has none of the key.
fn new_entry(
    alloc: Global,
    entries: &[DiskPair],
    key: &[u8],
    text: &[u8],
) -> Result<Option<DiskPair>, AllocError>
    ensures { IfOk result (λ new. with_entry entries.now key.now text.now ≡ entries.now ++ option_to_list new) }
{
    if text_of(entries, key).is_some() {
        return Ok(None);
    }
    Ok(Some(copied_pair(alloc, key, text)?))
}

/// The pair, if the disk takes it.
fn taken_pair(
    alloc: Global,
    taken: bool,
    key: &[u8],
    text: &[u8],
) -> Result<Option<DiskPair>, AllocError>
    ensures { IfOk result (λ new. (disk : List DiskPair) → saved disk key.now text.now taken ≡ option_to_list new ++ disk) }
{
    if taken {
        Ok(Some(copied_pair(alloc, key, text)?))
    } else {
        Ok(None)
    }
}

/// The disk takes a pair, which its look-ups then find before older ones of the key.
fn save(disk: &mut Vec<DiskPair>, pair: Option<DiskPair>) -> Result<(), AllocError>
    ensures ok { OnOk result (disk.new.items ≡ option_to_list pair ++ disk.old.items) }
    ensures err { OnErr result (disk.new.items ≡ disk.old.items) }
{
    if let Some(pair) = pair {
        disk.insert(0, pair)?;
    }
    Ok(())
}
