//! Links over a cache on a disk in memory: cold and warm, with any number of workers, and where the disk fails.

use crate::tables::{EMPTY, NONE, NOTHING, files_of, holds, input_of, output_of, words_of};
use lto_outside::Stage;
use outside_memory::{Failure, Leaves, MemoryDisk, MemoryGate, MemoryOut};
use std::alloc::{AllocError, Global};
use std::sync::Wait;
use std::thread::Threads;
use thinlto_main::{LinkMakes, status_of, top};

const MAIN: &[u8] =
    b"define i32 @main() {\n  %r = call i32 @f(i32 4)\n  ret i32 %r\n}\ndeclare i32 @f(i32)\n";

const TRIPLED: &[u8] =
    b"define i32 @f(i32 %x) {\n  %y = call i32 @h(i32 %x)\n  %z = add i32 %y, 1\n  ret i32 %z\n}\ndefine internal i32 @h(i32 %x) {\n  %y = mul i32 %x, 3\n  ret i32 %y\n}\n";

const LINKED: &[u8] = b"define i32 @main() {\n  ret i32 13\n}\n";

type Disk = MemoryDisk<LinkMakes>;

/// How a link over a disk ended: whether its text is right, how often a worker stored a unit, and the disk.
#[derive(Drop)]
struct Linked {
    right: bool,
    stored: u64,
    disk: Disk,
}

/// The link of both modules by so many workers, over a cache on this disk.
fn linked_on<R: Threads + Wait + Sync>(
    rt: &R,
    alloc: Global,
    jobs: &str,
    disk: Disk,
) -> Result<Linked, AllocError> {
    let given = [
        "link", "--cache", "c", "--jobs", jobs, "-o", "o", "a.ll", "b.ll",
    ];
    let words = words_of(alloc, &given)?;
    let mut files = files_of(alloc, MAIN, TRIPLED, NONE)?;
    let mut input = input_of(alloc, EMPTY)?;
    let mut out = output_of(alloc, NONE)?;
    let mut notes = MemoryOut::new(alloc, Vec::new(alloc));
    let gate = MemoryGate::new();
    let ended = top(
        rt, alloc, &words, &mut files, disk, &gate, &mut input, &mut out, &mut notes,
    );
    let told = out.sent() == NOTHING && notes.sent() == NOTHING;
    Ok(Linked {
        right: status_of(&ended.status) == 0 && holds(&files, "o", LINKED) && told,
        stored: gate.count(Stage::Keep),
        disk: ended.disk,
    })
}

#[test]
fn a_warm_cache_gives_the_same_bytes(rt: HostRuntime) -> Result<(), AllocError> {
    let alloc = rt.alloc();
    for jobs in ["1", "2", "64"] {
        let cold = linked_on(&rt, alloc, jobs, Disk::new(alloc, Vec::new(alloc)))?;
        assert!(rt; cold.right && cold.stored == 2, "cold, {jobs} jobs");
        let warm = linked_on(&rt, alloc, jobs, cold.disk)?;
        assert!(rt; warm.right && warm.stored == 0, "warm, {jobs} jobs");
    }
    Ok(())
}

/// What a call of the disk leaves that fails.
static LEFT: [Leaves; 4] = [
    Leaves::Before,
    Leaves::Absent,
    Leaves::Front(0),
    Leaves::Front(100),
];

#[test]
fn a_disk_that_fails_changes_no_byte(rt: HostRuntime) -> Result<(), AllocError> {
    let alloc = rt.alloc();
    for leaves in LEFT {
        for call in 0..4u64 {
            let failures = vec![in alloc; Failure { call, leaves }]?;
            let first = linked_on(&rt, alloc, "1", Disk::new(alloc, failures))?;
            assert!(rt; first.right, "call {call} fails");
            let second = linked_on(&rt, alloc, "2", first.disk)?;
            assert!(rt; second.right, "behind a failed call {call}");
        }
    }
    Ok(())
}
