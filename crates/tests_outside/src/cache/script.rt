//! Look-ups and stores, one after another, on a cache over a disk in memory.
ghost use Rattle.std.specs.Prelude.{◌≡◌, ℕ, List, Some};
ghost use Rattle.std.specs.List.{Contains};
ghost use Rattle.cache_slot.specs.Places.{IsAt};
ghost use Rattle.cache_slot.specs.Directory.{dir_of};
ghost use Rattle.outside_memory.specs.Disk.{disk_held, disk_calls};
ghost use Rattle.tests_outside.specs.Keys.{test_keys};

use crate::meaning::Anything;
use cache_slot::{CachePass, Kept, Setting, SharedCache};
use ir_tree::Text;
use outside_memory::MemoryDisk;
use std::alloc::{AllocError, Global};
use std::marker::Brand;
use std::sync::Wait;

pub type Disk = MemoryDisk<Anything>;

#[derive(Clone, Copy)]
pub enum Key {
    A,
    B,
}

impl Key {
    pub fn bytes(self) -> &'static [u8]
        ensures { Contains test_keys result.now }
    {
        match self {
            Key::A => b"a",
            Key::B => b"b",
        }
    }
}

#[derive(Clone, Copy)]
pub enum Step {
    Look(Key),
    /// Stores a text of this one byte.
    Keep(Key, u8),
}

#[derive(Clone, Copy, PartialEq, Eq)]
pub enum Answer {
    /// The first byte of a text that was found.
    Found(u8),
    Missed,
    Kept(Kept),
}

/// The answer of a look-up that found this.
fn answer_of(found: &Option<Text>) -> Answer {
    match found {
        Some(text) => Answer::Found(text.as_slice().first().copied().unwrap_or(0)),
        None => Answer::Missed,
    }
}

fn take_step<W: Wait, S: Setting>(
    rt: &W,
    alloc: Global,
    cache: &SharedCache<Disk, S>,
    pass: &mut CachePass<Disk, S>,
    step: Step,
) -> Result<Answer, AllocError>
    requires pass { IsAt cache.now.lock.table.shared.table_id pass.old.place.seat }
    requires keys { (key : List ℕ) → Contains test_keys key → S.keys key }
    ensures { IsAt cache.now.lock.table.shared.table_id pass.new.place.seat }
{
    match step {
        Step::Look(key) => {
            let found = cache.lookup(rt, alloc, pass, key.bytes())?;
            Ok(answer_of(&found))
        }
        Step::Keep(key, byte) => {
            let kept = cache.store(rt, alloc, pass, key.bytes(), &[byte])?;
            Ok(Answer::Kept(kept))
        }
    }
}

/// The answers of the steps, in their order.
fn take_steps<W: Wait, S: Setting>(
    rt: &W,
    alloc: Global,
    cache: &SharedCache<Disk, S>,
    pass: &mut CachePass<Disk, S>,
    script: &[Step],
) -> Result<Vec<Answer>, AllocError>
    requires pass { IsAt cache.now.lock.table.shared.table_id pass.old.place.seat }
    requires keys { (key : List ℕ) → Contains test_keys key → S.keys key }
    ensures { IsAt cache.now.lock.table.shared.table_id pass.new.place.seat }
{
    let mut answers = Vec::new(alloc);
    for step in script {
        answers.push(take_step(rt, alloc, cache, pass, *step)?)?;
    }
    Ok(answers)
}

fn run<W: Wait, S: Setting>(
    rt: &W,
    alloc: Global,
    disk: Disk,
    dir: Option<String>,
    script: &[Step],
) -> Result<(Vec<Answer>, Disk), AllocError>
    requires keys { (key : List ℕ) → Contains test_keys key → S.keys key }
    requires dir { S.dir ≡ dir_of dir }
    requires faults { S.faults ≡ (disk_calls disk).failed }
    requires files { S.files ≡ Some (disk_held disk) }
{
    let Ok((cache, mut pass)) = SharedCache::<Disk, S>::new(alloc, disk, dir) else {
        return Err(AllocError);
    };
    let answers = take_steps(rt, alloc, &cache, &mut pass, script)?;
    Ok((answers, cache.close(rt, pass)))
}

/// The answers of the steps on a new cache over this disk, and the disk at the end.
pub fn on_disk<W: Wait>(
    rt: &W,
    alloc: Global,
    disk: Disk,
    dir: Option<String>,
    script: &[Step],
) -> Result<(Vec<Answer>, Disk), AllocError> {
    run::<W, Brand>(rt, alloc, disk, dir, script)
}
