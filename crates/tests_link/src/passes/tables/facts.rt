//! Copies and constants.
use crate::passes::rows::{Pass, Row, failing};
use std::alloc::AllocError;

const FACTS: [Row; 13] = [
    (
        "a sum of constants",
        Pass::Optimised,
        b"define i32 @main() {
  %x = add i32 2, 3
  ret i32 %x
}
",
        b"define i32 @main() {
  ret i32 5
}
",
    ),
    (
        "a sum past its width",
        Pass::Optimised,
        b"define i8 @f() {
  %1 = add i8 255, 3
  ret i8 %1
}
",
        b"define i8 @f() {
  ret i8 2
}
",
    ),
    (
        "poison is frozen to zero",
        Pass::Optimised,
        b"define i8 @f() {
  %1 = freeze i8 poison
  ret i8 %1
}
",
        b"define i8 @f() {
  ret i8 0
}
",
    ),
    (
        "rows of the rule table",
        Pass::Optimised,
        b"define void @f(i32 %0, ptr %1) {
  %3 = mul i32 %0, 0
  store i32 %3, ptr %1
  %4 = sub i32 %0, %0
  store i32 %4, ptr %1
  %5 = xor i32 %0, 0
  store i32 %5, ptr %1
  %6 = select i1 false, i32 7, i32 8
  store i32 %6, ptr %1
  %7 = add i32 poison, %0
  store i32 %7, ptr %1
  %8 = icmp ule i32 %0, %0
  %9 = zext i1 %8 to i32
  store i32 %9, ptr %1
  ret void
}
",
        b"define void @f(i32 %0, ptr %1) {
  store i32 0, ptr %1, align 4
  store i32 0, ptr %1, align 4
  store i32 %0, ptr %1, align 4
  store i32 8, ptr %1, align 4
  store i32 poison, ptr %1, align 4
  store i32 1, ptr %1, align 4
  ret void
}
",
    ),
    (
        "an edge is taken with the value of the last turn",
        Pass::Optimised,
        b"define i32 @main() {
e:
  br label %l
l:
  %v = phi i32 [ 0, %e ], [ %n, %l ]
  %y = phi i32 [ 9, %e ], [ %x, %l ]
  %x = add i32 %v, 0
  %n = add i32 %v, 1
  %c = icmp eq i32 %n, 3
  br i1 %c, label %o, label %l
o:
  ret i32 %y
}
",
        b"define i32 @main() {
  br label %1
1:
  %2 = phi i32 [ 0, %0 ], [ %4, %1 ]
  %3 = phi i32 [ 9, %0 ], [ %2, %1 ]
  %4 = add i32 %2, 1
  %5 = icmp eq i32 %4, 3
  br i1 %5, label %6, label %1
6:
  ret i32 %3
}
",
    ),
    (
        "a phi of one operand beside itself",
        Pass::Optimised,
        b"define i32 @f(i32 %0, i1 %1) {
  br label %3
3:
  %4 = phi i32 [ %0, %2 ], [ %4, %3 ]
  br i1 %1, label %5, label %3
5:
  ret i32 %4
}
",
        b"define i32 @f(i32 %0, i1 %1) {
  br label %3
3:
  br i1 %1, label %4, label %3
4:
  ret i32 %0
}
",
    ),
    (
        "a phi of two entries is no copy",
        Pass::Optimised,
        b"define i32 @f(i32 %0, i32 %1, i1 %2) {
  br i1 %2, label %4, label %5
4:
  br label %5
5:
  %6 = phi i32 [ %0, %3 ], [ %1, %4 ]
  ret i32 %6
}
",
        b"define i32 @f(i32 %0, i32 %1, i1 %2) {
  br i1 %2, label %4, label %5
4:
  br label %5
5:
  %6 = phi i32 [ %0, %3 ], [ %1, %4 ]
  ret i32 %6
}
",
    ),
    (
        "sixteen sums fold",
        Pass::Optimised,
        b"define i32 @f(i32 %0) {
  %2 = add i32 1, 1
  %3 = add i32 %2, 1
  %4 = add i32 %3, 1
  %5 = add i32 %4, 1
  %6 = add i32 %5, 1
  %7 = add i32 %6, 1
  %8 = add i32 %7, 1
  %9 = add i32 %8, 1
  %10 = add i32 %9, 1
  %11 = add i32 %10, 1
  %12 = add i32 %11, 1
  %13 = add i32 %12, 1
  %14 = add i32 %13, 1
  %15 = add i32 %14, 1
  %16 = add i32 %15, 1
  %17 = add i32 %16, 1
  ret i32 %17
}
",
        b"define i32 @f(i32 %0) {
  ret i32 17
}
",
    ),
    (
        "of seventeen sums the last stays",
        Pass::Optimised,
        b"define i64 @f(i64 %0) {
  %2 = add i64 1, 1
  %3 = add i64 %2, 1
  %4 = add i64 %3, 1
  %5 = add i64 %4, 1
  %6 = add i64 %5, 1
  %7 = add i64 %6, 1
  %8 = add i64 %7, 1
  %9 = add i64 %8, 1
  %10 = add i64 %9, 1
  %11 = add i64 %10, 1
  %12 = add i64 %11, 1
  %13 = add i64 %12, 1
  %14 = add i64 %13, 1
  %15 = add i64 %14, 1
  %16 = add i64 %15, 1
  %17 = add i64 %16, 1
  %18 = add i64 %17, 1
  ret i64 %18
}
",
        b"define i64 @f(i64 %0) {
  %2 = add i64 17, 1
  ret i64 %2
}
",
    ),
    // Beside its constant a choice that is settled has no other value, in whichever order its uses are replaced.
    (
        "a free choice is settled in its place",
        Pass::Facts,
        b"define i32 @f() {
  %1 = freeze i32 poison
  %2 = select i1 true, i32 %1, i32 %1
  %3 = add i32 %1, %2
  ret i32 %3
}
",
        b"define i32 @f() {
  %1 = freeze i32 0
  %2 = select i1 true, i32 0, i32 0
  %3 = add i32 0, 0
  ret i32 0
}
",
    ),
    (
        "a chain loses one instruction a round, in three turns of sixteen rounds",
        Pass::Made(40),
        b"define i32 @f() {
  %1 = add i32 1, 1
  %2 = freeze i32 %1
  %3 = add i32 %2, 1
  %4 = freeze i32 %3
  %5 = add i32 %4, 1
  %6 = freeze i32 %5
  %7 = add i32 %6, 1
  %8 = freeze i32 %7
  %9 = add i32 %8, 1
  %10 = freeze i32 %9
  %11 = add i32 %10, 1
  %12 = freeze i32 %11
  %13 = add i32 %12, 1
  %14 = freeze i32 %13
  %15 = add i32 %14, 1
  %16 = freeze i32 %15
  %17 = add i32 %16, 1
  %18 = freeze i32 %17
  %19 = add i32 %18, 1
  %20 = freeze i32 %19
  %21 = add i32 %20, 1
  %22 = freeze i32 %21
  %23 = add i32 %22, 1
  %24 = freeze i32 %23
  %25 = add i32 %24, 1
  %26 = freeze i32 %25
  %27 = add i32 %26, 1
  %28 = freeze i32 %27
  %29 = add i32 %28, 1
  %30 = freeze i32 %29
  %31 = add i32 %30, 1
  %32 = freeze i32 %31
  %33 = add i32 %32, 1
  %34 = freeze i32 %33
  %35 = add i32 %34, 1
  %36 = freeze i32 %35
  %37 = add i32 %36, 1
  %38 = freeze i32 %37
  %39 = add i32 %38, 1
  %40 = freeze i32 %39
  %41 = add i32 %40, 1
  %42 = freeze i32 %41
  %43 = add i32 %42, 1
  %44 = freeze i32 %43
  %45 = add i32 %44, 1
  %46 = freeze i32 %45
  %47 = add i32 %46, 1
  %48 = freeze i32 %47
  %49 = add i32 %48, 1
  %50 = freeze i32 %49
  ret i32 %50
}
",
        b"define i32 @f() {
  %1 = add i32 25, 1
  %2 = freeze i32 %1
  ret i32 %2
}
",
    ),
    (
        "facts of reached blocks hold in others",
        Pass::Facts,
        b"define i32 @f(i32 %0) {
  %2 = add i32 %0, 0
  ret i32 %2
3:
  %4 = add i32 %2, 0
  ret i32 %4
}
",
        b"define i32 @f(i32 %0) {
  %2 = add i32 %0, 0
  ret i32 %0
3:
  %4 = add i32 %0, 0
  ret i32 %0
}
",
    ),
    // The last block leads to itself alone; its local 6 is a copy of its local 4, and is used in front of 4, between the
    // two, and behind both.
    (
        "between a new value and its copy a use stays",
        Pass::Facts,
        b"define i32 @f(i32 %0) {
  ret i32 %0
2:
  %3 = add i32 %6, 1
  %4 = add i32 %0, 1
  %5 = add i32 %6, 2
  %6 = add i32 %4, 0
  %7 = add i32 %6, 3
  br label %2
}
",
        b"define i32 @f(i32 %0) {
  ret i32 %0
2:
  %3 = add i32 %4, 1
  %4 = add i32 %0, 1
  %5 = add i32 %6, 2
  %6 = add i32 %4, 0
  %7 = add i32 %4, 3
  br label %2
}
",
    ),
];

#[test]
fn copies_and_constants(rt: HostRuntime) -> Result<(), AllocError> {
    let failing = failing(rt.alloc(), &FACTS)?;
    assert!(rt; failing.is_none(), "{failing:?}");
    Ok(())
}
