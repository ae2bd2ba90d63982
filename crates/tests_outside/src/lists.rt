//! List files, by a table: how many links each lists, or its first line that is none.
use lto_words::{BadLine, ListError, links};
use std::alloc::Global;

/// A list file, how many links it lists, and its first line that is none, or 0.
static LISTS: [(&[u8], usize, u64); 9] = [
    (b"", 0, 0),
    (b"o a", 1, 0),
    (b"o a b\no \xc3\xa4\n", 2, 0),
    (b"\n", 0, 1),
    (b"o a\no\n\n", 0, 2),
    (b"o a\no  a\n", 0, 2),
    (b"o a\no a \n", 0, 2),
    (b"o \xff\n", 0, 1),
    (
        b"o a\no a\no a\no a\no a\no a\no a\no a\no a\no a\no a\no a\no a\no a\no a\no a\no a\no\n",
        0,
        17,
    ),
];

fn listed(alloc: Global, bytes: &[u8]) -> (usize, u64) {
    match links(alloc, bytes) {
        Ok(links) => (links.len(), 0),
        Err(ListError::Fault(BadLine { line })) => (0, line),
        Err(ListError::NoMemory) => (0, u64::MAX),
    }
}

#[test]
fn lists_are_links_or_have_a_bad_line(rt: HostRuntime) {
    let alloc = rt.alloc();
    for &(bytes, count, line) in &LISTS {
        assert!(rt; listed(alloc, bytes) == (count, line), "{bytes:?}");
    }
}
