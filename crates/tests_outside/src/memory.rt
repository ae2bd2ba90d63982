//! Each object in memory: each call that allocates, on its happy path, and what failed writes leave.
use crate::calls::{holds, length, loads};
use crate::meaning::Anything;
use lto_outside::{ByteIn, ByteOut, CacheDisk, FetchFault, Files, Gate, Stage};
use outside_memory::{Failure, Leaves, MemoryDisk, MemoryFiles, MemoryGate, MemoryIn, MemoryOut};
use std::alloc::{AllocError, Global};

/// Files with the file `a`, whose third call leaves two bytes.
fn failing_files(alloc: Global) -> Result<MemoryFiles, AllocError> {
    let half = Failure {
        call: 2,
        leaves: Leaves::Front(2),
    };
    let mut files = MemoryFiles::new(alloc, vec![in alloc; half]?);
    files.with("a", b"old")?;
    Ok(files)
}

#[test]
fn files_keep_what_failed_puts_leave(rt: HostRuntime) -> Result<(), AllocError> {
    let mut files = failing_files(rt.alloc())?;
    assert!(rt; files.put("b", b"new").is_ok());
    assert!(rt; holds(rt.alloc(), &mut files, "a", b"old"));
    assert!(rt; files.put("a", b"text").is_err());
    assert!(rt; matches!(files.content("a"), Some(held) if held.equals(b"te")));
    assert!(rt; length(rt.alloc(), &mut files, "c") == Err(FetchFault::Fault));
    assert_eq!(rt; files.faults(), 2);
    Ok(())
}

/// A disk with the file `x` in `d`, whose second call leaves nothing of a file.
fn failing_disk(alloc: Global) -> Result<MemoryDisk<Anything>, AllocError> {
    let gone = Failure {
        call: 1,
        leaves: Leaves::Absent,
    };
    let mut disk = MemoryDisk::new(alloc, vec![in alloc; gone]?);
    disk.with("d", "x", b"entry")?;
    Ok(disk)
}

#[test]
fn a_disk_keeps_what_failed_saves_leave(rt: HostRuntime) -> Result<(), AllocError> {
    let mut disk = failing_disk(rt.alloc())?;
    assert!(rt; loads(rt.alloc(), &mut disk, "d", "x", Some(b"entry")));
    assert!(rt; disk.save("d", "x", b"other").is_err());
    assert!(rt; loads(rt.alloc(), &mut disk, "d", "x", None));
    assert!(rt; disk.save("d", "y", b"last").is_ok());
    assert!(rt; disk.content("d", "y").is_some());
    Ok(())
}

#[test]
fn input_goes_on_behind_a_failure(rt: HostRuntime) {
    let alloc = rt.alloc();
    let bytes = vec![in alloc; b'x', b'y'].expect(&rt, "memory");
    let mut input = MemoryIn::new(bytes, vec![in alloc; 1].expect(&rt, "memory"));
    assert!(rt; input.next() == Ok(Some(b'x')));
    assert!(rt; input.next().is_err());
    assert_eq!(rt; input.left(), b"y".as_slice());
}

#[test]
fn output_goes_on_behind_a_failure(rt: HostRuntime) {
    let alloc = rt.alloc();
    let mut out = MemoryOut::new(alloc, vec![in alloc; 1].expect(&rt, "memory"));
    assert!(rt; out.push(b'p').is_ok());
    assert!(rt; out.push(b'q').is_err());
    assert!(rt; out.push(b'r').is_ok());
    assert_eq!(rt; out.sent(), b"pr".as_slice());
}

#[test]
fn a_gate_counts_who_passes(rt: HostRuntime) {
    let gate = MemoryGate::new();
    gate.pass(0, None, Stage::Claim);
    gate.pass(0, Some(3), Stage::Done);
    assert_eq!(rt; (gate.count(Stage::Claim), gate.count(Stage::Keep)), (1, 0));
}
