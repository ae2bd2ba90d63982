//! Files in memory.
ghost use Rattle.std.specs.Prelude.{◌≡◌, ◌≤◌, ◌^◌, ◌∷◌, [], List, ℕ, None, Some, IfOk, OnOk, OnErr, IsErrOf, is_ok, is_err, length, take};
ghost use Rattle.std.specs.Option.{option_copied};
ghost use Rattle.lto_outside.specs.Calls.{Fetched, Put};
ghost use Rattle.lto_outside.specs.Cause.{Rose};
ghost use Rattle.lto_outside.specs.Replay.{Replays};
ghost use Rattle.lto_outside.specs.Store.{HasPut, SameFiles};
ghost use Rattle.outside_memory.specs.Calls.{no_calls, counted};
ghost use Rattle.outside_memory.specs.Failures.{leaves_at};
ghost use Rattle.outside_memory.specs.Found.{found};
ghost use Rattle.outside_memory.specs.Files.{files_held, files_calls, files_failures, FetchAnswer, PutAnswer, PutLeaves, is_fetch_fault};

use crate::calls::Calls;
use crate::failure::{Failure, Leaves, failure_at};
use ir_tree::Text;
use lto_outside::{Fault, FetchFault, Files};
use std::alloc::{AllocError, Global};

/// What one write made a file hold.
#[derive(Drop)]
pub struct Entry {
    pub name: Text,
    pub bytes: Text,
}

/// Files in memory. The newest write of a name stands before the older ones.
#[derive(Drop)]
pub struct MemoryFiles {
    alloc: Global,
    entries: Vec<Entry>,
    calls: Calls,
    failures: Vec<Failure>,
}

fn find<'a>(entries: &'a [Entry], name: &str) -> Option<&'a Text>
    ensures { option_copied result ≡ found entries.now name.now }
{
    for entry in entries {
        if entry.name.equals(name.as_bytes()) {
            return Some(&entry.bytes);
        }
    }
    None
}

fn added(
    alloc: Global,
    entries: &mut Vec<Entry>,
    name: &str,
    bytes: &[u8],
) -> Result<(), AllocError>
    ensures ok { OnOk result (HasPut (found entries.old.items) (found entries.new.items) name.now bytes.now) }
    ensures err { OnErr result (entries.new.items ≡ entries.old.items) }
{
    let entry = Entry {
        name: Text::copied(alloc, name.as_bytes())?,
        bytes: Text::copied(alloc, bytes)?,
    };
    entries.insert(0, entry)?;
    Ok(())
}

impl MemoryFiles {
    /// No files. The calls of these numbers are to fail.
    pub fn new(alloc: Global, failures: Vec<Failure>) -> Self
        ensures none { (name : List ℕ) → files_held result name ≡ None }
        ensures calls { files_calls result ≡ no_calls }
        ensures failures { files_failures result ≡ failures.items }
    {
        MemoryFiles {
            alloc,
            entries: Vec::new(alloc),
            calls: Calls::none(),
            failures,
        }
    }

    /// Makes the file of this name hold these bytes. It is no call.
    pub fn with(&mut self, name: &str, bytes: &[u8]) -> Result<(), AllocError>
        ensures ok { OnOk result (HasPut (files_held self.old) (files_held self.new) name.now bytes.now) }
        ensures err { OnErr result (SameFiles (files_held self.old) (files_held self.new)) }
        ensures calls { files_calls self.new ≡ files_calls self.old }
        ensures failures { files_failures self.new ≡ files_failures self.old }
    {
        added(self.alloc, &mut self.entries, name, bytes)
    }

    /// What the file of this name holds, or none where no file has the name.
    pub fn content(&self, name: &str) -> Option<&Text>
        ensures { option_copied result ≡ files_held self.now name.now }
    {
        find(&self.entries, name)
    }

    /// The calls that were made, and those of them that failed.
    pub fn calls(&self) -> Calls
        ensures { result ≡ files_calls self.now }
    {
        self.calls
    }
}

impl Files for MemoryFiles {
    ghost use Rattle.std.specs.Prelude.{Some, ℕ};
    ghost use Rattle.outside_memory.specs.Files.{files_held, files_calls};
    ghost use Rattle.lto_outside.specs.Replay.{Replays};
    ghost use Rattle.lto_outside.specs.ReplayLaws.{replays_none, replays_more};

    ghost held = { λ m. Some (files_held m) };

    ghost faults = { λ m. (files_calls m).failed };

    ghost did = { λ a calls b. Replays (files_held a) calls (files_held b) };

    ghost did_none = { λ a. replays_none (files_held a) };

    ghost did_more = { λ a b c first rest p q. replays_more first rest (files_held a) (files_held b) (files_held c) p q };

    ghost did_tells = { λ a b calls p. p };

    fn fetch(&mut self, alloc: Global, name: &str) -> Result<Text, FetchFault>
        ensures call { Replays (files_held self.old) (Fetched name.now result ∷ []) (files_held self.new) }
        ensures short { IfOk result (λ text. length text ≤ 2 ^ 24) }
        ensures later { (files_calls self.old).failed ≤ (files_calls self.new).failed }
        ensures cause { IsErrOf result FetchFault.Fault → Rose (files_calls self.old).failed (files_calls self.new).failed }
        ensures answer { FetchAnswer (leaves_at (files_failures self.old) (files_calls self.old).made) (files_held self.old name.now) result }
        ensures counts { files_calls self.new ≡ counted (files_calls self.old) (is_fetch_fault result) }
        ensures failures { files_failures self.new ≡ files_failures self.old }
    {
        let number = self.calls.call();
        if failure_at(&self.failures, number).is_some() {
            self.calls.fail();
            return Err(FetchFault::Fault);
        }
        match find(&self.entries, name) {
            None => {
                self.calls.fail();
                Err(FetchFault::Fault)
            }
            Some(bytes) => {
                if bytes.len() > 1 << 24 {
                    return Err(FetchFault::TooLong);
                }
                match Text::copied(alloc, bytes.as_slice()) {
                    Ok(text) => Ok(text),
                    Err(_) => Err(FetchFault::NoMemory),
                }
            }
        }
    }

    fn put(&mut self, name: &str, bytes: &[u8]) -> Result<(), Fault>
        ensures call { Replays (files_held self.old) (Put name.now bytes.now (is_ok result) ∷ []) (files_held self.new) }
        ensures later { (files_calls self.old).failed ≤ (files_calls self.new).failed }
        ensures cause { OnErr result (Rose (files_calls self.old).failed (files_calls self.new).failed) }
        ensures answer { PutAnswer (leaves_at (files_failures self.old) (files_calls self.old).made) (files_held self.old) (files_held self.new) name.now bytes.now result }
        ensures counts { files_calls self.new ≡ counted (files_calls self.old) (is_err result) }
        ensures failures { files_failures self.new ≡ files_failures self.old }
    {
        let number = self.calls.call();
        match failure_at(&self.failures, number) {
            None => match added(self.alloc, &mut self.entries, name, bytes) {
                Ok(()) => Ok(()),
                Err(_) => {
                    self.calls.fail();
                    Err(Fault)
                }
            },
            Some(leaves) => {
                self.calls.fail();
                self.leave(name, bytes, leaves);
                Err(Fault)
            }
        }
    }

    fn faults(&self) -> u64 {
        self.calls.failed
    }
}

impl MemoryFiles {
    /// What a put that fails leaves: a front of the bytes, where it is to and memory is left.
    fn leave(&mut self, name: &str, bytes: &[u8], leaves: Leaves)
        ensures left { PutLeaves leaves (files_held self.old) (files_held self.new) name.now bytes.now }
        ensures calls { files_calls self.new ≡ files_calls self.old }
        ensures failures { files_failures self.new ≡ files_failures self.old }
    {
        if let Leaves::Front(count) = leaves {
            let front = &bytes[..count.min(bytes.len())];
            let _ = added(self.alloc, &mut self.entries, name, front);
        }
    }
}
