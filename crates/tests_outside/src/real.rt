//! The adapters of real files, of a directory, and of streams.
use crate::calls::{holds, length, loads};
use crate::meaning::Anything;
use lto_outside::{ByteIn, ByteOut, CacheDisk, FetchFault, Files};
use outside_real::{RealDisk, RealFiles, RealIn, RealOut};
use std::alloc::{AllocError, Global};
use std::fs;

/// Whether the second of two texts is what a file holds, and nothing failed.
fn keeps_the_second<F: Files>(alloc: Global, files: &mut F) -> bool {
    let put = files.put("a", b"longer").is_ok() && files.put("a", b"xyz").is_ok();
    put && holds(alloc, files, "a", b"xyz") && files.faults() == 0
}

/// Whether a file and a directory that aren't there are two faults.
fn counts_what_is_absent<F: Files>(alloc: Global, files: &mut F) -> bool {
    let absent = length(alloc, files, "absent") == Err(FetchFault::Fault);
    absent && files.put("absent/a", b"").is_err() && files.faults() == 2
}

#[test]
fn a_file_is_put_and_fetched(rt: HostRuntime) {
    let mut files = RealFiles::new(&rt);
    assert!(rt; keeps_the_second(rt.alloc(), &mut files));
    assert!(rt; counts_what_is_absent(rt.alloc(), &mut files));
}

/// What is fetched of a file in which so many bytes were put.
fn fetched<F: Files>(
    alloc: Global,
    files: &mut F,
    len: usize,
) -> Result<Result<usize, FetchFault>, AllocError> {
    let bytes = vec![in alloc; b'x'; len]?;
    match files.put("full", bytes.as_slice()) {
        Ok(()) => Ok(length(alloc, files, "full")),
        Err(_) => Ok(Err(FetchFault::Fault)),
    }
}

#[test]
fn a_file_past_the_limit_is_too_long(rt: HostRuntime) -> Result<(), AllocError> {
    let mut files = RealFiles::new(&rt);
    assert!(rt; fetched(rt.alloc(), &mut files, 1 << 24)? == Ok(1 << 24));
    assert!(rt; fetched(rt.alloc(), &mut files, (1 << 24) + 1)? == Err(FetchFault::TooLong));
    assert_eq!(rt; files.faults(), 0);
    Ok(())
}

/// Whether an entry that isn't there is saved, and the second of two is loaded.
fn saves_the_second<D: CacheDisk>(alloc: Global, disk: &mut D) -> bool {
    let absent = loads(alloc, disk, ".", "e", None);
    let saved = disk.save(".", "e", b"first").is_ok() && disk.save(".", "e", b"xyz").is_ok();
    absent && saved && loads(alloc, disk, ".", "e", Some(b"xyz"))
}

#[test]
fn an_entry_is_saved_and_loaded(rt: HostRuntime) {
    let mut disk: RealDisk<'_, _, Anything> = RealDisk::new(&rt);
    assert!(rt; saves_the_second(rt.alloc(), &mut disk));
    assert!(rt; !fs::exists(&rt, "./e.part").expect(&rt, "a directory"));
    // a directory that isn't there is made, and a file is none
    assert!(rt; disk.save("made", "e", b"xyz").is_ok());
    assert!(rt; disk.save("e", "e", b"").is_err());
    assert_eq!(rt; disk.faults(), 1);
}

#[test]
fn bytes_come_in_order(rt: HostRuntime) {
    let mut input = RealIn::new(b"ab".as_slice());
    for &byte in &[Some(b'a'), Some(b'b'), None] {
        assert!(rt; input.next() == Ok(byte));
    }
    assert_eq!(rt; input.faults(), 0);
}

#[test]
fn bytes_are_sent_in_order(rt: HostRuntime) {
    let mut sent = Vec::new(rt.alloc());
    let mut out = RealOut::new(&mut sent);
    assert!(rt; out.push(b'x').is_ok());
    assert!(rt; out.push(b'y').is_ok());
    assert_eq!(rt; out.faults(), 0);
    drop(out);
    assert_eq!(rt; sent.as_slice(), b"xy".as_slice());
}
