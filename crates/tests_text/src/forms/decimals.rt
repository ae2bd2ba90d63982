//! Numbers that digits write.

use ir_parse_parts::decimal;

#[test]
fn digits_write_a_number(rt: HostRuntime) {
    assert!(rt; decimal(b"0042") == Some(42));
    assert!(rt; decimal(b"18446744073709551616") == None);
}

#[test]
fn the_greatest_number_is_read(rt: HostRuntime) {
    assert!(rt; decimal(b"18446744073709551615") == Some(18446744073709551615));
}
