//! Sets: calls that allocate, at sizes round those of words, and what becomes of two sets of seventy numbers.
use lto_sets::Bits;
use std::alloc::AllocError;

#[test]
fn sets_are_made_and_combined(rt: HostRuntime) -> Result<(), AllocError> {
    for size in [0, 1, 63, 64, 65, 1000] {
        let empty = Bits::new(rt.alloc(), size)?;
        let full = Bits::full(rt.alloc(), size)?;
        assert_eq!(rt; empty.size(), size);
        assert_eq!(rt; full.size(), size);
        assert_eq!(rt; empty.equal(&full), size == 0, "at {size}");
    }
    let mut left = Bits::new(rt.alloc(), 70)?;
    let mut right = Bits::full(rt.alloc(), 70)?;
    left.with(3);
    left.with(64);
    right.without(64);
    assert!(rt; left.has(3) && left.has(64) && !left.has(4) && !left.has(65));
    assert!(rt; right.has(3) && !right.has(64) && right.has(69));
    left.meet(&right);
    assert!(rt; left.has(3) && !left.has(64));
    left.join(&right);
    assert!(rt; left.equal(&right));
    left.with(64);
    assert!(rt; !left.equal(&right));
    right.copy_from(&left);
    assert!(rt; right.has(64) && left.equal(&right));
    Ok(())
}
