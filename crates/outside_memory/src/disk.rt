//! A cache's disk in memory.
ghost use Rattle.std.specs.Prelude.{◌≡◌, ◌≤◌, ◌∷◌, List, ℕ, None, Some, OnOk, OnErr, IsErrOf, is_err};
ghost use Rattle.std.specs.Option.{option_copied};
ghost use Rattle.lto_outside.specs.Cause.{Rose};
ghost use Rattle.lto_outside.specs.DiskStore.{Loads, DiskStays, Saves, SavesPart, HasSaved};
ghost use Rattle.outside_memory.specs.Calls.{no_calls, counted};
ghost use Rattle.outside_memory.specs.DiskFound.{disk_found, is_at};
ghost use Rattle.outside_memory.specs.Disk.{disk_held, disk_calls, disk_failures, LoadAnswer, SaveAnswer, SaveLeaves, IsNow, SameEntries, is_load_fault};
ghost use Rattle.outside_memory.specs.Failures.{leaves_at};

use crate::calls::Calls;
use crate::failure::{Failure, Leaves, failure_at};
use ir_tree::Text;
use lto_outside::{CacheDisk, Fault, LoadFault, Meaning};
use std::alloc::{AllocError, Global};
use std::marker::PhantomData;

/// What one write made a file of a directory hold, or that it left none.
#[derive(Drop)]
pub struct DiskEntry {
    pub dir: Text,
    pub name: Text,
    pub bytes: Option<Text>,
}

/// A cache's directories in memory. The newest write of a file stands before the older ones. `M` says which text is made
/// of which key.
#[derive(Drop)]
pub struct MemoryDisk<M: Meaning> {
    alloc: Global,
    entries: Vec<DiskEntry>,
    calls: Calls,
    failures: Vec<Failure>,
    meaning: PhantomData<M>,
}

fn is_entry(entry: &DiskEntry, dir: &str, name: &str) -> bool
    ensures { result ≡ is_at dir.now name.now entry.now }
{
    entry.dir.equals(dir.as_bytes()) && entry.name.equals(name.as_bytes())
}

fn find<'a>(entries: &'a [DiskEntry], dir: &str, name: &str) -> Option<&'a Text>
    ensures { option_copied result ≡ disk_found entries.now dir.now name.now }
{
    for entry in entries {
        if is_entry(entry, dir, name) {
            return entry.bytes.as_ref();
        }
    }
    None
}

fn added(
    alloc: Global,
    entries: &mut Vec<DiskEntry>,
    dir: &str,
    name: &str,
    bytes: Option<Text>,
) -> Result<(), AllocError>
    ensures ok { OnOk result (IsNow (disk_found entries.old.items) (disk_found entries.new.items) dir.now name.now bytes) }
    ensures err { OnErr result (entries.new.items ≡ entries.old.items) }
{
    let entry = DiskEntry {
        dir: Text::copied(alloc, dir.as_bytes())?,
        name: Text::copied(alloc, name.as_bytes())?,
        bytes,
    };
    entries.insert(0, entry)?;
    Ok(())
}

fn written(
    alloc: Global,
    entries: &mut Vec<DiskEntry>,
    dir: &str,
    name: &str,
    bytes: &[u8],
) -> Result<(), AllocError>
    ensures ok { OnOk result (HasSaved (disk_found entries.old.items) (disk_found entries.new.items) dir.now name.now bytes.now) }
    ensures err { OnErr result (entries.new.items ≡ entries.old.items) }
{
    let text = Text::copied(alloc, bytes)?;
    added(alloc, entries, dir, name, Some(text))
}

impl<M: Meaning> MemoryDisk<M> {
    /// No files. The calls of these numbers are to fail.
    pub fn new(alloc: Global, failures: Vec<Failure>) -> Self
        ensures none { (dir name : List ℕ) → disk_held result dir name ≡ None }
        ensures calls { disk_calls result ≡ no_calls }
        ensures failures { disk_failures result ≡ failures.items }
    {
        MemoryDisk {
            alloc,
            entries: Vec::new(alloc),
            calls: Calls::none(),
            failures,
            meaning: PhantomData,
        }
    }

    /// Makes the file of this name in this directory hold these bytes. It is no call.
    pub fn with(&mut self, dir: &str, name: &str, bytes: &[u8]) -> Result<(), AllocError>
        ensures ok { OnOk result (HasSaved (disk_held self.old) (disk_held self.new) dir.now name.now bytes.now) }
        ensures err { OnErr result (SameEntries (disk_held self.old) (disk_held self.new)) }
        ensures calls { disk_calls self.new ≡ disk_calls self.old }
        ensures failures { disk_failures self.new ≡ disk_failures self.old }
    {
        written(self.alloc, &mut self.entries, dir, name, bytes)
    }

    /// What the file of this name in this directory holds, or none where there is no such file.
    pub fn content(&self, dir: &str, name: &str) -> Option<&Text>
        ensures { option_copied result ≡ disk_held self.now dir.now name.now }
    {
        find(&self.entries, dir, name)
    }

    /// The calls that were made, and those of them that failed.
    pub fn calls(&self) -> Calls
        ensures { result ≡ disk_calls self.now }
    {
        self.calls
    }

    /// What a save that fails leaves: the file as it is to be, where memory is left.
    fn leave(&mut self, dir: &str, name: &str, bytes: &[u8], leaves: Leaves)
        ensures left { SaveLeaves leaves (disk_held self.old) (disk_held self.new) dir.now name.now bytes.now }
        ensures calls { disk_calls self.new ≡ disk_calls self.old }
        ensures failures { disk_failures self.new ≡ disk_failures self.old }
    {
        let alloc = self.alloc;
        match leaves {
            Leaves::Before => {}
            Leaves::Absent => {
                let _ = added(alloc, &mut self.entries, dir, name, None);
            }
            Leaves::Front(count) => {
                let front = &bytes[..count.min(bytes.len())];
                let _ = written(alloc, &mut self.entries, dir, name, front);
            }
        }
    }
}

impl<M: Meaning> CacheDisk for MemoryDisk<M> {
    ghost use Rattle.std.specs.Prelude.{Some, ℕ};
    ghost use Rattle.outside_memory.specs.Disk.{disk_held, disk_calls};

    ghost held = { λ m. Some (disk_held m) };

    ghost faults = { λ m. (disk_calls m).failed };

    ghost fits = { M.fits };

    fn load(&mut self, alloc: Global, dir: &str, name: &str) -> Result<Option<Text>, LoadFault>
        ensures bytes { Loads (Some (disk_held self.old)) dir.now name.now result }
        ensures stay { DiskStays (Some (disk_held self.old)) (Some (disk_held self.new)) }
        ensures later { (disk_calls self.old).failed ≤ (disk_calls self.new).failed }
        ensures cause { IsErrOf result LoadFault.Fault → Rose (disk_calls self.old).failed (disk_calls self.new).failed }
        ensures answer { LoadAnswer (leaves_at (disk_failures self.old) (disk_calls self.old).made) (disk_held self.old dir.now name.now) result }
        ensures counts { disk_calls self.new ≡ counted (disk_calls self.old) (is_load_fault result) }
        ensures failures { disk_failures self.new ≡ disk_failures self.old }
    {
        let number = self.calls.call();
        if failure_at(&self.failures, number).is_some() {
            self.calls.fail();
            return Err(LoadFault::Fault);
        }
        match find(&self.entries, dir, name) {
            None => Ok(None),
            Some(bytes) => match Text::copied(alloc, bytes.as_slice()) {
                Ok(text) => Ok(Some(text)),
                Err(_) => Err(LoadFault::NoMemory),
            },
        }
    }

    fn save(&mut self, dir: &str, name: &str, bytes: &[u8]) -> Result<(), Fault>
        ensures written { OnOk result (Saves (Some (disk_held self.old)) (Some (disk_held self.new)) dir.now name.now bytes.now) }
        ensures part { OnErr result (SavesPart (Some (disk_held self.old)) (Some (disk_held self.new)) dir.now name.now bytes.now) }
        ensures later { (disk_calls self.old).failed ≤ (disk_calls self.new).failed }
        ensures cause { OnErr result (Rose (disk_calls self.old).failed (disk_calls self.new).failed) }
        ensures answer { SaveAnswer (leaves_at (disk_failures self.old) (disk_calls self.old).made) (disk_held self.old) (disk_held self.new) dir.now name.now bytes.now result }
        ensures counts { disk_calls self.new ≡ counted (disk_calls self.old) (is_err result) }
        ensures failures { disk_failures self.new ≡ disk_failures self.old }
    {
        let number = self.calls.call();
        match failure_at(&self.failures, number) {
            None => match written(self.alloc, &mut self.entries, dir, name, bytes) {
                Ok(()) => Ok(()),
                Err(_) => {
                    self.calls.fail();
                    Err(Fault)
                }
            },
            Some(leaves) => {
                self.calls.fail();
                self.leave(dir, name, bytes, leaves);
                Err(Fault)
            }
        }
    }

    fn faults(&self) -> u64 {
        self.calls.failed
    }
}
