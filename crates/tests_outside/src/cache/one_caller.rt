//! One caller: faults, broken and misplaced entries, a cache in memory, and a warm one.
use crate::cache::script::{Answer, Disk, Key, Step, on_disk};
use cache_slot::{Kept, SkipCause};
use lto_outside::CacheDisk;
use outside_memory::{Failure, Leaves, MemoryDisk};
use std::alloc::{AllocError, Global};
use std::sync::Wait;

const NEW: Answer = Answer::Kept(Kept::New);

const AGAIN: Answer = Answer::Kept(Kept::Already);

const SKIPPED: Answer = Answer::Kept(Kept::Skipped(SkipCause::Disk));

/// The name of the file of the key `a`.
const A: &str = "86f7e437faa5a7fce15d1ddcb9eaeaea377667b8.tlto";

/// The name of the file of the key `b`.
const B: &str = "e9d71f5ee7c92d6dc9e92ffdad17b8bd49418f98.tlto";

/// The entry of the key `a` with the text `1`.
const A_1: &[u8] = b"TLTOENT1\x00\x00\x00\x00\x00\x00\x00\x01\x00\x00\x00\x00\x00\x00\x00\x01a1";

/// The entry of the key `a` with the text `2`.
const A_2: &[u8] = b"TLTOENT1\x00\x00\x00\x00\x00\x00\x00\x01\x00\x00\x00\x00\x00\x00\x00\x01a2";

/// The entry of the key `b` with the text `2`.
const B_2: &[u8] = b"TLTOENT1\x00\x00\x00\x00\x00\x00\x00\x01\x00\x00\x00\x00\x00\x00\x00\x01b2";

/// The call of the disk that fails, what the first store of each key answers, and how many faults are counted.
const CALLS: [(u64, Answer, Answer, u64); 5] = [
    (0, NEW, NEW, 1),
    (1, SKIPPED, NEW, 1),
    (2, NEW, NEW, 1),
    (3, NEW, SKIPPED, 1),
    // There is no such call.
    (4, NEW, NEW, 0),
];

/// What a save of the entry of `a` that fails leaves, and what the file then holds.
const LEFT: [(Leaves, Option<&[u8]>); 5] = [
    (Leaves::Before, None),
    (Leaves::Absent, None),
    (Leaves::Front(0), Some(b"")),
    (Leaves::Front(13), Some(b"TLTOENT1\x00\x00\x00\x00\x00")),
    (Leaves::Front(100), Some(A_1)),
];

/// The disk behind a script on a new cache over this disk, where its answers are these.
fn answered<W: Wait>(
    rt: &W,
    alloc: Global,
    disk: Disk,
    dir: Option<&str>,
    script: &[Step],
    wanted: &[Answer],
) -> Result<Option<Disk>, AllocError> {
    let dir = match dir {
        Some(name) => Some(String::from_str(alloc, name)?),
        None => None,
    };
    let (answers, disk) = on_disk(rt, alloc, disk, dir, script)?;
    if answers.as_slice() == wanted {
        Ok(Some(disk))
    } else {
        Ok(None)
    }
}

/// Whether the file of a name in the directory `d` holds these bytes, or isn't there.
fn holds(disk: &Disk, name: &str, wanted: Option<&[u8]>) -> bool {
    match (disk.content("d", name), wanted) {
        (Some(bytes), Some(wanted)) => bytes.equals(wanted),
        (None, None) => true,
        _ => false,
    }
}

/// The disk is called by the steps 0, 1, 4 and 5.
const FAILING: [Step; 7] = [
    Step::Look(Key::A),
    Step::Keep(Key::A, b'1'),
    Step::Look(Key::A),
    Step::Keep(Key::A, b'2'),
    Step::Look(Key::B),
    Step::Keep(Key::B, b'3'),
    Step::Look(Key::B),
];

/// Whether a script over a disk that fails once gives these answers, and so many faults and this file are left.
fn fails_so<W: Wait>(
    rt: &W,
    alloc: Global,
    failure: Failure,
    wanted: &[Answer],
    faults: u64,
    left: Option<&[u8]>,
) -> Result<bool, AllocError> {
    let disk = MemoryDisk::new(alloc, vec![in alloc; failure]?);
    match answered(rt, alloc, disk, Some("d"), &FAILING, wanted)? {
        Some(disk) => Ok(disk.faults() == faults && holds(&disk, A, left)),
        None => Ok(false),
    }
}

#[test]
fn each_call_of_the_disk_fails_alone(rt: HostRuntime) -> Result<(), AllocError> {
    for &(call, first, second, faults) in &CALLS {
        for &(leaves, left) in &LEFT {
            let found = [Answer::Found(b'1'), Answer::Found(b'3')];
            let wanted = [
                Answer::Missed,
                first,
                found[0],
                AGAIN,
                Answer::Missed,
                second,
                found[1],
            ];
            let kept = if call == 1 { left } else { Some(A_1) };
            let failure = Failure { call, leaves };
            assert!(rt;
                fails_so(&rt, rt.alloc(), failure, &wanted, faults, kept)?,
                "call {call}, {leaves:?}"
            );
        }
    }
    Ok(())
}

/// Whether the entry of `a` is found so where its file holds these bytes, and is stored anew.
fn mends<W: Wait>(rt: &W, alloc: Global, front: &[u8], found: Answer) -> Result<bool, AllocError> {
    let mut disk = MemoryDisk::new(alloc, Vec::new(alloc));
    disk.with("d", A, front)?;
    let script = [Step::Look(Key::A), Step::Keep(Key::A, b'2')];
    match answered(rt, alloc, disk, Some("d"), &script, &[found, NEW])? {
        Some(disk) => Ok(holds(&disk, A, Some(A_2))),
        None => Ok(false),
    }
}

#[test]
fn a_cut_entry_is_missed_and_mended(rt: HostRuntime) -> Result<(), AllocError> {
    let whole = A_1;
    for len in 0..whole.len() {
        assert!(rt;
            mends(&rt, rt.alloc(), &whole[..len], Answer::Missed)?,
            "{len} bytes"
        );
    }
    assert!(rt; mends(&rt, rt.alloc(), whole, Answer::Found(b'1'))?);
    Ok(())
}

/// Entries under each other's names.
fn swapped(alloc: Global) -> Result<Disk, AllocError> {
    let mut disk = MemoryDisk::new(alloc, Vec::new(alloc));
    disk.with("d", A, B_2)?;
    disk.with("d", B, A_1)?;
    Ok(disk)
}

const LOOKS_AND_KEEPS: [Step; 4] = [
    Step::Look(Key::A),
    Step::Look(Key::B),
    Step::Keep(Key::A, b'1'),
    Step::Look(Key::A),
];

#[test]
fn entries_under_each_others_names_are_missed(rt: HostRuntime) -> Result<(), AllocError> {
    let alloc = rt.alloc();
    let wanted = [Answer::Missed, Answer::Missed, NEW, Answer::Found(b'1')];
    let disk = swapped(alloc)?;
    let Some(disk) = answered(&rt, alloc, disk, Some("d"), &LOOKS_AND_KEEPS, &wanted)? else {
        panic!(rt; "other answers");
    };
    // A new cache over the same disk finds what was stored, and still misses the other.
    let script = [Step::Look(Key::A), Step::Look(Key::B)];
    let wanted = [Answer::Found(b'1'), Answer::Missed];
    assert!(rt; answered(&rt, alloc, disk, Some("d"), &script, &wanted)?.is_some());
    Ok(())
}

const IN_MEMORY: [Step; 5] = [
    Step::Look(Key::A),
    Step::Keep(Key::A, b'1'),
    Step::Keep(Key::A, b'2'),
    Step::Look(Key::A),
    Step::Look(Key::B),
];

#[test]
fn a_cache_without_a_directory_lives_in_memory(rt: HostRuntime) -> Result<(), AllocError> {
    let alloc = rt.alloc();
    let disk = MemoryDisk::new(alloc, Vec::new(alloc));
    let found = Answer::Found(b'1');
    let wanted = [Answer::Missed, NEW, AGAIN, found, Answer::Missed];
    match answered(&rt, alloc, disk, None, &IN_MEMORY, &wanted)? {
        Some(disk) => assert!(rt; disk.calls().made == 0),
        None => panic!(rt; "other answers"),
    }
    Ok(())
}
