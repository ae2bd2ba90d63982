//! Texts that are taken apart as those of units, and written again.
use lto_task::{pieces, unit_text};
use std::alloc::Global;

/// A text, and of how many pieces it is; none where it is the text of no unit.
type Row = (&'static str, Option<usize>);

const ROWS: [Row; 18] = [
    ("", Some(0)),
    ("def @f 0 0\n", Some(1)),
    ("def @f 0 3\nabc", Some(1)),
    ("def @f 2 1\n@a\n@b\n\ndef @\"g h\" 0 0\n", Some(2)),
    ("def @\"a\\0Ab\" 1 0\n@\"\\22\"\n", Some(1)),
    ("def @f 0 0", None),
    ("def @f 0 1\n", None),
    ("def @f 1 0\n", None),
    ("def @f 1 0\n@a", None),
    ("def @f 00 0\n", None),
    ("def @f 0 +0\n", None),
    ("def @f  0 0\n", None),
    ("def @\"f\" 0 0\n", None),
    ("def @f 2 0\n@b\n@a\n", None),
    ("def @f 2 0\n@a\n@a\n", None),
    ("def @g 0 0\ndef @f 0 0\n", None),
    ("def @f 0 0\ndef @f 0 0\n", None),
    ("def @f 0 0\n\n", None),
];

/// Of how many pieces the bytes are the text, where these are written as they were read.
fn count_of(alloc: Global, bytes: &[u8]) -> Option<usize> {
    let read = pieces(alloc, bytes).ok()?;
    let unit = read?;
    let written = unit_text(alloc, unit.as_slice()).ok()?;
    if written.equals(bytes) {
        Some(unit.len())
    } else {
        None
    }
}

#[test]
fn units_are_taken_apart(rt: HostRuntime) {
    for (text, count) in &ROWS {
        assert!(rt; count_of(rt.alloc(), text.as_bytes()) == *count, "{text}");
    }
}
