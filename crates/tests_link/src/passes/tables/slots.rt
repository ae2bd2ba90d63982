//! Stack slots that become values.
use crate::passes::rows::{Pass, Row, failing};
use std::alloc::AllocError;

const SLOTS: [Row; 3] = [
    (
        "a slot in a loop",
        Pass::Slots,
        b"define i32 @f() {
  %1 = alloca i32, align 4
  store i32 0, ptr %1, align 4
  br label %2
2:
  %3 = phi i32 [ 0, %0 ], [ %7, %6 ]
  %4 = icmp eq i32 %3, 5
  br i1 %4, label %5, label %6
5:
  store i32 %3, ptr %1, align 4
  br label %6
6:
  %7 = add i32 %3, 1
  %8 = icmp eq i32 %7, 10
  br i1 %8, label %9, label %2
9:
  %10 = load i32, ptr %1, align 4
  ret i32 %10
}
",
        b"define i32 @f() {
  br label %2
2:
  %11 = phi i32 [ 0, %0 ], [ %13, %6 ]
  %3 = phi i32 [ 0, %0 ], [ %7, %6 ]
  %4 = icmp eq i32 %3, 5
  br i1 %4, label %5, label %6
5:
  %12 = phi i32 [ %11, %2 ]
  br label %6
6:
  %13 = phi i32 [ %11, %2 ], [ %3, %5 ]
  %7 = add i32 %3, 1
  %8 = icmp eq i32 %7, 10
  br i1 %8, label %9, label %2
9:
  %14 = phi i32 [ %13, %6 ]
  %10 = select i1 true, i32 %14, i32 %14
  ret i32 %10
}
",
    ),
    (
        "two edges of a switch to one block, and a slot that is empty before its first store",
        Pass::Slots,
        b"define i32 @f(i32 %0) {
  %2 = alloca i32, align 4
  store i32 7, ptr %2, align 4
  %3 = alloca i32, align 4
  switch i32 %0, label %4 [ i32 1, label %6 i32 2, label %6 ]
4:
  %5 = load i32, ptr %2, align 4
  store i32 %0, ptr %2, align 4
  store i32 %5, ptr %3, align 4
  store i32 9, ptr %3, align 4
  br label %6
6:
  %7 = load i32, ptr %3, align 4
  %8 = load i32, ptr %2, align 4
  ret i32 %8
}
",
        b"define i32 @f(i32 %0) {
  switch i32 %0, label %4 [ i32 1, label %6 i32 2, label %6 ]
4:
  %9 = phi i32 [ 7, %1 ]
  %10 = phi i32 [ poison, %1 ]
  %5 = select i1 true, i32 %9, i32 %9
  br label %6
6:
  %11 = phi i32 [ 7, %1 ], [ 7, %1 ], [ %0, %4 ]
  %12 = phi i32 [ poison, %1 ], [ poison, %1 ], [ 9, %4 ]
  %7 = select i1 true, i32 %12, i32 %12
  %8 = select i1 true, i32 %11, i32 %11
  ret i32 %8
}
",
    ),
    (
        "slots stay whose addresses go elsewhere",
        Pass::Slots,
        b"define i32 @f() {
  %1 = alloca i32, align 4
  %2 = alloca i32, align 4
  %3 = alloca i32, align 4
  store i32 5, ptr %2, align 4
  %4 = load i16, ptr %2, align 4
  store ptr %3, ptr null, align 8
  ret i32 0
}
",
        b"define i32 @f() {
  %2 = alloca i32, align 4
  %3 = alloca i32, align 4
  store i32 5, ptr %2, align 4
  %4 = load i16, ptr %2, align 4
  store ptr %3, ptr null, align 8
  ret i32 0
}
",
    ),
];

#[test]
fn slots_become_values(rt: HostRuntime) -> Result<(), AllocError> {
    let failing = failing(rt.alloc(), &SLOTS)?;
    assert!(rt; failing.is_none(), "{failing:?}");
    Ok(())
}
