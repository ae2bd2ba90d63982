//! The inline walk over a function, and the whole back end with it.
use crate::passes::rows::{Pass, Row, failing};
use std::alloc::AllocError;

const WALKS: [Row; 9] = [
    (
        "the walk goes on behind what was inserted, and not inside it",
        Pass::Walk(40),
        b"define i32 @f(i32 %0) {
  %2 = call i32 @g(i32 %0)
  %3 = call i32 @h(i32 %2)
  ret i32 %3
}
define i32 @g(i32 %0) {
  %2 = call i32 @h(i32 %0)
  ret i32 %2
}
define i32 @h(i32 %0) {
  %2 = mul i32 %0, 3
  ret i32 %2
}
",
        b"define i32 @f(i32 %0) {
  br label %4
4:
  %5 = call i32 @h(i32 %0)
  br label %6
6:
  %2 = phi i32 [ %5, %4 ]
  br label %7
7:
  %8 = mul i32 %2, 3
  br label %9
9:
  %3 = phi i32 [ %8, %7 ]
  ret i32 %3
}
",
    ),
    (
        "a caller isn't inlined into itself, nor is a callee that calls itself",
        Pass::Walk(40),
        b"define i32 @f(i32 %0) {
  %2 = call i32 @f(i32 %0)
  %3 = call i32 @g(i32 %2)
  ret i32 %3
}
define i32 @g(i32 %0) {
  %2 = call i32 @g(i32 %0)
  ret i32 %2
}
",
        b"define i32 @f(i32 %0) {
  %2 = call i32 @f(i32 %0)
  %3 = call i32 @g(i32 %2)
  ret i32 %3
}
",
    ),
    (
        "a callee that calls itself at another type",
        Pass::Walk(40),
        b"define i32 @f() {
  %1 = call i32 @g()
  ret i32 %1
}
define i32 @g() {
  call void @g()
  ret i32 1
}
",
        b"define i32 @f() {
  %1 = call i32 @g()
  ret i32 %1
}
",
    ),
    (
        "replaceable bodies",
        Pass::Walk(40),
        b"define i32 @f() {
  %1 = call i32 @g()
  %2 = call i32 @h()
  ret i32 %1
}
define weak i32 @g() {
  ret i32 1
}
define linkonce i32 @h() {
  ret i32 1
}
",
        b"define i32 @f() {
  %1 = call i32 @g()
  %2 = call i32 @h()
  ret i32 %1
}
",
    ),
    (
        "bodies of one definition rule are inlined, a body for other modules' copies isn't",
        Pass::Walk(40),
        b"define i32 @f() {
  %1 = call i32 @g()
  %2 = call i32 @h()
  ret i32 %1
}
define weak_odr i32 @g() {
  ret i32 1
}
define available_externally i32 @h() {
  ret i32 1
}
",
        b"define i32 @f() {
  br label %3
3:
  br label %4
4:
  %1 = phi i32 [ 1, %3 ]
  %2 = call i32 @h()
  ret i32 %1
}
",
    ),
    (
        "noinline and optnone",
        Pass::Walk(40),
        b"define i32 @f() {
  %1 = call i32 @g()
  %2 = call i32 @h()
  ret i32 %1
}
define i32 @g() noinline {
  ret i32 1
}
define i32 @h() noinline optnone {
  ret i32 1
}
",
        b"define i32 @f() {
  %1 = call i32 @g()
  %2 = call i32 @h()
  ret i32 %1
}
",
    ),
    (
        "a body one longer than the limit",
        Pass::Walk(2),
        b"define i32 @f(i32 %0) {
  %2 = call i32 @g(i32 %0)
  %3 = call i32 @h(i32 %0)
  ret i32 %3
}
define i32 @g(i32 %0) {
  %2 = mul i32 %0, 3
  %3 = mul i32 %2, 3
  ret i32 %3
}
define i32 @h(i32 %0) {
  %2 = mul i32 %0, 3
  ret i32 %2
}
",
        b"define i32 @f(i32 %0) {
  %2 = call i32 @g(i32 %0)
  br label %4
4:
  %5 = mul i32 %0, 3
  br label %6
6:
  %3 = phi i32 [ %5, %4 ]
  ret i32 %3
}
",
    ),
    (
        "a call through a value, and one at another type",
        Pass::Walk(40),
        b"define i32 @f(ptr %0) {
  %2 = call i32 %0()
  %3 = call i32 @g(i32 %2)
  ret i32 %3
}
define i32 @g() {
  ret i32 1
}
",
        b"define i32 @f(ptr %0) {
  %2 = call i32 %0()
  %3 = call i32 @g(i32 %2)
  ret i32 %3
}
",
    ),
    (
        "calls in two blocks",
        Pass::Walk(40),
        b"define i32 @f(i1 %0) {
  br i1 %0, label %2, label %4
2:
  %3 = call i32 @g()
  br label %4
4:
  %5 = phi i32 [ 0, %1 ], [ %3, %2 ]
  %6 = call i32 @g()
  %7 = add i32 %5, %6
  ret i32 %7
}
define i32 @g() {
  ret i32 1
}
",
        b"define i32 @f(i1 %0) {
  br i1 %0, label %2, label %4
2:
  br label %8
8:
  br label %9
9:
  %3 = phi i32 [ 1, %8 ]
  br label %4
4:
  %5 = phi i32 [ 0, %1 ], [ %3, %9 ]
  br label %10
10:
  br label %11
11:
  %6 = phi i32 [ 1, %10 ]
  %7 = add i32 %5, %6
  ret i32 %7
}
",
    ),
];

const MADE: [Row; 5] = [
    (
        "a chain of calls becomes its value",
        Pass::Made(40),
        b"define i32 @main() {
  %1 = call i32 @f(i32 4)
  ret i32 %1
}
define i32 @f(i32 %0) {
  %2 = call i32 @h(i32 %0)
  %3 = add i32 %2, 1
  ret i32 %3
}
define internal i32 @h(i32 %0) {
  %2 = mul i32 %0, 3
  ret i32 %2
}
",
        b"define i32 @main() {
  ret i32 13
}
",
    ),
    (
        "a chain up to a function that isn't to be inlined",
        Pass::Made(40),
        b"define i32 @main() {
  %1 = call i32 @f(i32 4)
  ret i32 %1
}
define i32 @f(i32 %0) {
  %2 = call i32 @h(i32 %0)
  %3 = add i32 %2, 1
  ret i32 %3
}
define internal i32 @h(i32 %0) noinline {
  %2 = mul i32 %0, 3
  ret i32 %2
}
",
        b"define i32 @main() {
  %1 = call i32 @h(i32 4)
  %2 = add i32 %1, 1
  ret i32 %2
}
",
    ),
    (
        "a callee that never returns",
        Pass::Made(40),
        b"define i32 @main() {
  %1 = call i32 @spin(i32 1)
  ret i32 %1
}
define internal i32 @spin(i32 %0) {
  br label %2
2:
  br label %2
}
",
        b"define i32 @main() {
  br label %1
1:
  br label %1
}
",
    ),
    (
        "a slot of the callee",
        Pass::Made(40),
        b"define i32 @main() {
  %1 = call i32 @g(i32 7)
  ret i32 %1
}
define internal i32 @g(i32 %0) {
  %2 = alloca i32, align 4
  store i32 %0, ptr %2, align 4
  %3 = load i32, ptr %2, align 4
  ret i32 %3
}
",
        b"define i32 @main() {
  ret i32 7
}
",
    ),
    (
        "a function that is to be left alone takes no body",
        Pass::Made(40),
        b"define i32 @main() noinline optnone {
  %1 = call i32 @g()
  ret i32 %1
}
define internal i32 @g() {
  ret i32 7
}
",
        b"define i32 @main() noinline optnone {
  %1 = call i32 @g()
  ret i32 %1
}
",
    ),
];

#[test]
fn walks_inline_what_they_may(rt: HostRuntime) -> Result<(), AllocError> {
    let failing = failing(rt.alloc(), &WALKS)?;
    assert!(rt; failing.is_none(), "{failing:?}");
    Ok(())
}

#[test]
fn the_back_end_inlines_before_other_passes(rt: HostRuntime) -> Result<(), AllocError> {
    let failing = failing(rt.alloc(), &MADE)?;
    assert!(rt; failing.is_none(), "{failing:?}");
    Ok(())
}
