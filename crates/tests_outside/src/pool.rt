//! Pools over a disk in memory.
ghost use Rattle.std.specs.Prelude.{◌≡◌, ◌<◌, ◌≤◌, ◌^◌, ℕ, IfOk, List, Some, length, map};
ghost use Rattle.std.specs.List.{Contains};
ghost use Rattle.cache_slot.specs.Directory.{dir_of};
ghost use Rattle.lto_task.specs.Tasks.{task_text, task_view};
ghost use Rattle.outside_memory.specs.Disk.{disk_held, disk_calls};

use back_pool::{Backend, run_pool};
use cache_slot::{Setting, SharedCache};
use ir_tree::Rows;
use lto_outside::{Meaning, Stage};
use lto_task::{Piece, Task, TaskModule, pieces};
use outside_memory::{MemoryDisk, MemoryGate};
use std::alloc::{AllocError, Global};
use std::marker::Brand;
use std::sync::Wait;
use std::test::Fail;
use std::thread::Threads;

/// Every unit is made of every task.
struct AnyUnit;

impl Meaning for AnyUnit {
    ghost use Rattle.std.specs.Prelude.{◌≡◌, List, ℕ};
    ghost use Rattle.lto_task.specs.Units.{IsUnit, unit_text};
    ghost use Rattle.lto_task.specs.declared.piece.Piece.{Piece};

    ghost fits = { λ key text. ∥ ((ps : List Piece) × IsUnit ps × Unit {0} × (text ≡ unit_text ps)) ∥₁ };
}

/// A back end that knows two tasks, by their limits.
#[derive(Drop)]
struct TwoUnits;

impl Backend for TwoUnits {
    ghost makes = { λ t ps. Unit {0} };

    ghost takes = { λ t. Unit {0} };

    fn compile(&self, alloc: Global, task: &Task) -> Result<Rows<Piece>, AllocError> {
        let text: &[u8] = match task.inline_limit {
            0 => b"def @a 0 1\n0",
            _ => b"def @b 0 1\n1",
        };
        pieces(alloc, text)?.ok_or(AllocError)
    }
}

fn module(alloc: Global) -> TaskModule<'static> {
    TaskModule {
        defined: Vec::new(alloc),
        declared: Rows::new(alloc),
    }
}

/// Tasks of these limits.
fn tasks(alloc: Global, limits: &[u32]) -> Result<Vec<Task<'static>>, AllocError>
    ensures { IfOk result (λ v. length v.items ≡ length limits.now) }
{
    let mut tasks = Vec::new(alloc);
    for limit in limits {
        tasks.push(Task {
            inline_limit: *limit,
            exports: Vec::new(alloc),
            promoted: Vec::new(alloc),
            own: module(alloc),
            imported: module(alloc),
        })?;
    }
    Ok(tasks)
}

/// The first bytes of the texts of the units' first pieces.
fn firsts(alloc: Global, units: &[Rows<Piece>]) -> Result<Vec<u8>, AllocError> {
    let mut bytes = Vec::new(alloc);
    for unit in units {
        let piece = unit.as_slice().first();
        let byte = piece.and_then(|p| p.text.as_slice().first().copied());
        bytes.push(byte.unwrap_or(0))?;
    }
    Ok(bytes)
}

type Disk = MemoryDisk<AnyUnit>;

fn run<R: Threads + Wait + Sync, S: Setting + Send + Sync>(
    rt: &R,
    alloc: Global,
    jobs: u32,
    disk: Disk,
    dir: Option<String>,
    tasks: &[Task],
    gate: &MemoryGate,
) -> Result<(Vec<u8>, Disk), AllocError>
    requires jobs { (1 ≤ jobs) × (jobs ≤ 64) }
    requires count { length tasks.now < 2 ^ 32 }
    requires keys { (key : List ℕ) → Contains (map (λ t. task_text (task_view t)) tasks.now) key → S.keys key }
    requires dir { S.dir ≡ dir_of dir }
    requires faults { S.faults ≡ (disk_calls disk).failed }
    requires files { S.files ≡ Some (disk_held disk) }
{
    let Ok((cache, mut pass)) = SharedCache::<Disk, S>::new(alloc, disk, dir) else {
        return Err(AllocError);
    };
    let units = run_pool(rt, alloc, jobs, tasks, &TwoUnits, &cache, &mut pass, gate)?;
    let bytes = firsts(alloc, units.as_slice())?;
    Ok((bytes, cache.close(rt, pass)))
}

fn run_on<R: Threads + Wait + Sync>(
    rt: &R,
    alloc: Global,
    jobs: u32,
    disk: Disk,
    tasks: &[Task],
    gate: &MemoryGate,
) -> Result<(Vec<u8>, Disk), AllocError>
    requires jobs { (1 ≤ jobs) × (jobs ≤ 64) }
    requires count { length tasks.now < 2 ^ 32 }
{
    let dir = String::from_str(alloc, "cache")?;
    run::<R, Brand>(rt, alloc, jobs, disk, Some(dir), tasks, gate)
}

#[test]
fn any_number_of_jobs_gives_one_answer(rt: HostRuntime) -> Result<(), Fail> {
    let alloc = rt.alloc();
    let tasks = tasks(alloc, &[1, 0])?;
    for jobs in [1u32, 2, 64] {
        let disk = MemoryDisk::new(alloc, Vec::new(alloc));
        let cold = MemoryGate::new();
        let (bytes, disk) = run_on(&rt, alloc, jobs, disk, tasks.as_slice(), &cold)?;
        assert!(rt; bytes.as_slice() == b"10".as_slice());
        assert_eq!(rt; cold.count(Stage::Keep), 2);

        // What is on the disk isn't compiled again.
        let warm = MemoryGate::new();
        let (bytes, _) = run_on(&rt, alloc, jobs, disk, tasks.as_slice(), &warm)?;
        assert!(rt; bytes.as_slice() == b"10".as_slice());
        assert_eq!(rt; warm.count(Stage::Keep), 0);
        assert_eq!(rt; warm.count(Stage::Done), 2);
    }
    Ok(())
}
