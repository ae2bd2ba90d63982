//! Callers beside each other that store one key.
ghost use Rattle.std.specs.Prelude.{◌≡◌, ℕ, List, None, Some, All, IfOk};
ghost use Rattle.std.specs.List.{Contains};
ghost use Rattle.cache_slot.specs.Places.{IsAt};
ghost use Rattle.outside_memory.specs.Disk.{disk_held, disk_calls};
ghost use Rattle.tests_outside.specs.Keys.{test_keys};

use crate::cache::script::{Disk, Key};
use cache_slot::{CachePass, Kept, Setting, SharedCache};
use outside_memory::MemoryDisk;
use std::alloc::{AllocError, Global};
use std::marker::Brand;
use std::sync::Wait;
use std::test::Fail;
use std::thread;
use std::thread::Threads;

#[derive(Drop)]
struct Caller<S: Setting> {
    pass: CachePass<Disk, S>,
    kept: Option<Kept>,
}

fn store_once<W: Wait, S: Setting>(
    rt: &W,
    alloc: Global,
    cache: &SharedCache<Disk, S>,
    caller: &mut Caller<S>,
)
    requires pass { IsAt cache.now.lock.table.shared.table_id caller.old.pass.place.seat }
    requires keys { (key : List ℕ) → Contains test_keys key → S.keys key }
{
    let answer = cache.store(rt, alloc, &mut caller.pass, Key::A.bytes(), b"1");
    caller.kept = answer.ok();
}

fn store_in_threads<R: Threads + Wait + Sync, S: Setting + Send + Sync>(
    rt: &R,
    alloc: Global,
    cache: &SharedCache<Disk, S>,
    callers: &mut [Caller<S>],
)
    requires passes { All (λ c. IsAt cache.now.lock.table.shared.table_id c.pass.place.seat) callers.old }
    requires keys { (key : List ℕ) → Contains test_keys key → S.keys key }
{
    let threads = callers.len();
    if threads > 0 {
        thread::for_each_mut(
            rt,
            callers,
            threads,
            &|_, c| { store_once(rt, alloc, cache, c) },
        );
    }
}

/// So many callers of a cache, each with a pass of its own.
fn callers_of<S: Setting>(
    alloc: Global,
    cache: &SharedCache<Disk, S>,
    first: &mut CachePass<Disk, S>,
    count: usize,
) -> Result<Vec<Caller<S>>, AllocError>
    requires { IsAt cache.now.lock.table.shared.table_id first.old.place.seat }
    ensures first { IsAt cache.now.lock.table.shared.table_id first.new.place.seat }
    ensures callers { IfOk result (λ v. All (λ c. IsAt cache.now.lock.table.shared.table_id c.pass.place.seat) v.items) }
{
    let mut callers = Vec::new(alloc);
    for _ in 0..count {
        let pass = cache.split(first);
        callers.push(Caller { pass, kept: None })?;
    }
    Ok(callers)
}

/// How many of the callers answered New, and how many Already.
fn answers_of<S: Setting>(callers: &[Caller<S>]) -> (usize, usize) {
    let mut new = 0usize;
    let mut again = 0usize;
    for caller in callers {
        match caller.kept {
            Some(Kept::New) => new = new.wrapping_add(1),
            Some(Kept::Already) => again = again.wrapping_add(1),
            _ => {}
        }
    }
    (new, again)
}

/// How many callers beside each other, who store one key, are answered New, and how many Already.
fn store_beside<R: Threads + Wait + Sync, S: Setting + Send + Sync>(
    rt: &R,
    alloc: Global,
    disk: Disk,
    count: usize,
) -> Result<(usize, usize), AllocError>
    requires keys { (key : List ℕ) → Contains test_keys key → S.keys key }
    requires dir { S.dir ≡ None }
    requires faults { S.faults ≡ (disk_calls disk).failed }
    requires files { S.files ≡ Some (disk_held disk) }
{
    let Ok((cache, mut first)) = SharedCache::<Disk, S>::new(alloc, disk, None) else {
        return Err(AllocError);
    };
    let mut callers = callers_of(alloc, &cache, &mut first, count)?;
    store_in_threads(rt, alloc, &cache, callers.as_mut_slice());
    let answers = answers_of(callers.as_slice());
    let _ = cache.close(rt, first);
    Ok(answers)
}

fn store_in_memory<R: Threads + Wait + Sync>(
    rt: &R,
    alloc: Global,
    disk: Disk,
    count: usize,
) -> Result<(usize, usize), AllocError> {
    store_beside::<R, Brand>(rt, alloc, disk, count)
}

#[test]
fn one_of_many_stores_of_a_key_is_new(rt: HostRuntime) -> Result<(), Fail> {
    let alloc = rt.alloc();
    for count in [1usize, 2, 8] {
        let disk = MemoryDisk::new(alloc, Vec::new(alloc));
        let answers = store_in_memory(&rt, alloc, disk, count)?;
        assert_eq!(rt; answers, (1, count - 1));
    }
    Ok(())
}
