//! Bytes of entries and names of their files, worked out outside.
use cache_slot::{decode, encode, file_name};

/// The entry of the key `ab` with the text `c`.
const KNOWN: &[u8] = b"TLTOENT1\x00\x00\x00\x00\x00\x00\x00\x02\x00\x00\x00\x00\x00\x00\x00\x01abc";

#[test]
fn known_entries_and_names(rt: HostRuntime) {
    let bytes = encode(rt.alloc(), b"ab", b"c").expect(&rt, "memory");
    assert!(rt; bytes.equals(KNOWN));

    let Some((key, text)) = decode(bytes.as_slice()) else {
        panic!(rt; "a whole entry");
    };
    assert!(rt; key == b"ab".as_slice());
    assert!(rt; text == b"c".as_slice());
    assert!(rt; bytes.len() == 27);
    for len in 0..27 {
        assert!(rt; decode(&bytes.as_slice()[..len]).is_none());
    }

    let name = file_name(rt.alloc(), b"abc").expect(&rt, "memory");
    assert!(rt; name.as_slice() == b"a9993e364706816aba3e25717850c26c9cd0d89d.tlto".as_slice());
}
