//! Calls in whose place the callee's body stands, and places where no call of the callee, of its type, stands.
use crate::passes::rows::{Pass, Row, failing};
use std::alloc::AllocError;

/// A function that calls the second, which returns its parameter.
const CALL_AND_CALLEE: &[u8] = b"define i32 @f() {
  %1 = call i32 @g(i32 1)
  ret i32 %1
}
define i32 @g(i32 %0) {
  ret i32 %0
}
";

const INLINED: [Row; 8] = [
    (
        "two returns meet in a phi",
        Pass::Inline(1),
        b"define i32 @f(i32 %0) {
  %2 = call i32 @g(i1 true, i32 %0)
  %3 = add i32 %2, 2
  ret i32 %3
}
define i32 @g(i1 %0, i32 %1) {
  br i1 %0, label %3, label %4
3:
  ret i32 %1
4:
  %5 = add i32 %1, 1
  ret i32 %5
}
",
        b"define i32 @f(i32 %0) {
  br label %4
4:
  br i1 true, label %5, label %6
5:
  br label %8
6:
  %7 = add i32 %0, 1
  br label %8
8:
  %2 = phi i32 [ %0, %5 ], [ %7, %6 ]
  %3 = add i32 %2, 2
  ret i32 %3
}
",
    ),
    (
        "a void callee writes to a slot that stays",
        Pass::Inline(2),
        b"define void @f() {
  %1 = alloca i32, align 4
  call void @g(ptr %1)
  ret void
}
define void @g(ptr %0) {
  store i32 7, ptr %0, align 4
  ret void
}
",
        b"define void @f() {
  %1 = alloca i32, align 4
  br label %2
2:
  store i32 7, ptr %1, align 4
  br label %3
3:
  ret void
}
",
    ),
    (
        "a result that is never returned is poison",
        Pass::Inline(1),
        b"define i32 @f() {
  %1 = call i32 @g()
  %2 = add i32 %1, 1
  ret i32 %2
}
define i32 @g() {
  unreachable
}
",
        b"define i32 @f() {
  br label %3
3:
  unreachable
4:
  %2 = add i32 poison, 1
  ret i32 %2
}
",
    ),
    (
        "a loop comes before the phis that named the block",
        Pass::Inline(2),
        b"define i32 @f(i1 %0) {
  br i1 %0, label %2, label %4
2:
  %3 = call i32 @g(i32 9)
  br label %4
4:
  %5 = phi i32 [ %3, %2 ], [ 0, %1 ]
  ret i32 %5
}
define i32 @g(i32 %0) {
  br label %2
2:
  %3 = phi i32 [ 0, %1 ], [ %4, %2 ]
  %4 = add i32 %3, 1
  %5 = icmp ult i32 %4, %0
  br i1 %5, label %2, label %6
6:
  ret i32 %4
}
",
        b"define i32 @f(i1 %0) {
  br i1 %0, label %2, label %4
2:
  br label %6
6:
  br label %7
7:
  %8 = phi i32 [ 0, %6 ], [ %9, %7 ]
  %9 = add i32 %8, 1
  %10 = icmp ult i32 %9, 9
  br i1 %10, label %7, label %11
11:
  br label %12
12:
  %3 = phi i32 [ %9, %11 ]
  br label %4
4:
  %5 = phi i32 [ %3, %12 ], [ 0, %1 ]
  ret i32 %5
}
",
    ),
    (
        "a block that loops is entered from its rest",
        Pass::Inline(3),
        b"define i32 @f(i32 %0) {
  br label %2
2:
  %3 = phi i32 [ 0, %1 ], [ %4, %2 ]
  %4 = call i32 @g(i32 %3)
  %5 = icmp ult i32 %4, %0
  br i1 %5, label %2, label %6
6:
  ret i32 %4
}
define i32 @g(i32 %0) {
  %2 = add i32 %0, 1
  ret i32 %2
}
",
        b"define i32 @f(i32 %0) {
  br label %2
2:
  %3 = phi i32 [ 0, %1 ], [ %4, %9 ]
  br label %7
7:
  %8 = add i32 %3, 1
  br label %9
9:
  %4 = phi i32 [ %8, %7 ]
  %5 = icmp ult i32 %4, %0
  br i1 %5, label %2, label %6
6:
  ret i32 %4
}
",
    ),
    (
        "a second copy takes the next numbers",
        Pass::InlineTwice(1, 7),
        b"define i64 @f(i64 %0) {
  %2 = call i64 @g(i1 true, i64 %0)
  %3 = call i64 @g(i1 false, i64 %2)
  ret i64 %3
}
define i64 @g(i1 %0, i64 %1) {
  br i1 %0, label %3, label %4
3:
  ret i64 %1
4:
  %5 = add i64 %1, 1
  ret i64 %5
}
",
        b"define i64 @f(i64 %0) {
  br label %4
4:
  br i1 true, label %5, label %6
5:
  br label %8
6:
  %7 = add i64 %0, 1
  br label %8
8:
  %2 = phi i64 [ %0, %5 ], [ %7, %6 ]
  br label %9
9:
  br i1 false, label %10, label %11
10:
  br label %13
11:
  %12 = add i64 %2, 1
  br label %13
13:
  %3 = phi i64 [ %2, %10 ], [ %12, %11 ]
  ret i64 %3
}
",
    ),
    (
        "a caller without a call at the places stays",
        Pass::InlineTwice(3, 4),
        b"define i32 @f(i32 %0) {
  %2 = call i32 @g(i32 %0)
  %3 = call i32 @g(i32 %2)
  ret i32 %3
}
define i32 @g(i32 %0) {
  ret i32 %0
}
",
        b"define i32 @f(i32 %0) {
  %2 = call i32 @g(i32 %0)
  %3 = call i32 @g(i32 %2)
  ret i32 %3
}
",
    ),
    (
        "a callee that returns its parameter",
        Pass::Inline(1),
        CALL_AND_CALLEE,
        b"define i32 @f() {
  br label %2
2:
  br label %3
3:
  %1 = phi i32 [ 1, %2 ]
  ret i32 %1
}
",
    ),
];

/// A function of one call, of `@g`.
const ONE_CALL: &[u8] = b"define i32 @f() {
  %1 = call i32 @g(i32 1)
  ret i32 %1
}
";

/// The function of one call before others, where no call of the second function, of its type, stands at the place.
const NOT_INLINED: [Row; 6] = [
    (
        "there is no place 0",
        Pass::Inline(0),
        CALL_AND_CALLEE,
        ONE_CALL,
    ),
    (
        "a terminator is no call",
        Pass::Inline(2),
        CALL_AND_CALLEE,
        ONE_CALL,
    ),
    (
        "behind the last place is none",
        Pass::Inline(3),
        CALL_AND_CALLEE,
        ONE_CALL,
    ),
    (
        "a call of another function",
        Pass::Inline(1),
        b"define i32 @f() {
  %1 = call i32 @g(i32 1)
  ret i32 %1
}
define i32 @h(i32 %0) {
  ret i32 %0
}
declare i32 @g(i32)
",
        ONE_CALL,
    ),
    (
        "a call of another type",
        Pass::Inline(1),
        b"define i32 @f() {
  %1 = call i32 @g(i32 1)
  ret i32 %1
}
define i64 @g(i64 %0) {
  ret i64 %0
}
",
        ONE_CALL,
    ),
    (
        "a callee that is declared",
        Pass::Inline(1),
        b"define i32 @f() {
  %1 = call i32 @g(i32 1)
  ret i32 %1
}
declare i32 @g(i32)
",
        ONE_CALL,
    ),
];

#[test]
fn calls_are_inlined(rt: HostRuntime) -> Result<(), AllocError> {
    let failing = failing(rt.alloc(), &INLINED)?;
    assert!(rt; failing.is_none(), "{failing:?}");
    Ok(())
}

#[test]
fn no_call_is_taken_for_another(rt: HostRuntime) -> Result<(), AllocError> {
    let failing = failing(rt.alloc(), &NOT_INLINED)?;
    assert!(rt; failing.is_none(), "{failing:?}");
    Ok(())
}
