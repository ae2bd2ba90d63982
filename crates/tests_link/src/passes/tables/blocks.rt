//! Branches, blocks that are not reached, and blocks that follow one another.
use crate::passes::rows::{Pass, Row, failing};
use std::alloc::AllocError;

/// Blocks 7, 5 and 3 follow one another against the text, and block 12 follows block 9, which has a phi.
const CHAIN: &[u8] = b"define i32 @f(i1 %0) {
  %2 = freeze i32 11
  br i1 %0, label %9, label %7
3:
  %4 = freeze i32 13
  br label %9
5:
  %6 = freeze i32 15
  br label %3
7:
  %8 = freeze i32 17
  br label %5
9:
  %10 = phi i32 [ %2, %1 ], [ %4, %3 ]
  %11 = freeze i32 19
  br label %12
12:
  %13 = freeze i32 23
  ret i32 %10
}
";

const BLOCKS: [Row; 7] = [
    (
        "a switch on a constant, a branch on poison and one on true",
        Pass::Branches,
        b"define i32 @f(i1 %0) {
  switch i32 2, label %3 [ i32 1, label %2 i32 2, label %3 i32 3, label %3 ]
2:
  br i1 poison, label %3, label %5
3:
  %4 = phi i32 [ 7, %1 ], [ 8, %2 ], [ 7, %1 ], [ 7, %1 ]
  br i1 true, label %5, label %2
5:
  %6 = phi i32 [ 9, %2 ], [ 10, %3 ]
  ret i32 %6
}
",
        b"define i32 @f(i1 %0) {
  br label %3
2:
  br i1 poison, label %3, label %5
3:
  %4 = phi i32 [ 7, %1 ], [ 8, %2 ]
  br label %5
5:
  %6 = phi i32 [ 9, %2 ], [ 10, %3 ]
  ret i32 %6
}
",
    ),
    (
        "edges that are lost to a block with a phi, and beside one that stays",
        Pass::Branches,
        b"define i32 @f(i1 %0) {
  br i1 %0, label %2, label %4
2:
  %3 = freeze i32 11
  switch i32 3, label %6 [ i32 1, label %4 i32 2, label %4 i32 3, label %6 ]
4:
  %5 = phi i32 [ %3, %2 ], [ 7, %1 ], [ %3, %2 ]
  ret i32 %5
6:
  %7 = phi i32 [ %3, %2 ], [ %3, %2 ]
  ret i32 %7
}
",
        b"define i32 @f(i1 %0) {
  br i1 %0, label %2, label %4
2:
  %3 = freeze i32 11
  br label %6
4:
  %5 = phi i32 [ 7, %1 ]
  ret i32 %5
6:
  %7 = phi i32 [ %3, %2 ]
  ret i32 %7
}
",
    ),
    (
        "branches to one block, and a switch with a case",
        Pass::Branches,
        b"define i32 @f(i1 %0) {
  br i1 %0, label %2, label %2
2:
  %3 = phi i32 [ 4, %1 ], [ 4, %1 ]
  switch i32 poison, label %4 [ ]
4:
  switch i32 %3, label %5 [ i32 4, label %5 ]
5:
  ret i32 %3
}
",
        b"define i32 @f(i1 %0) {
  br label %2
2:
  %3 = phi i32 [ 4, %1 ]
  br label %4
4:
  switch i32 %3, label %5 [ i32 4, label %5 ]
5:
  ret i32 %3
}
",
    ),
    (
        "a circle that nobody reaches",
        Pass::Trim,
        b"define i32 @f() {
  br label %3
1:
  br label %2
2:
  br i1 true, label %1, label %3
3:
  %4 = phi i32 [ 7, %0 ], [ 8, %2 ]
  ret i32 %4
}
",
        b"define i32 @f() {
  br label %3
3:
  %4 = phi i32 [ 7, %0 ]
  ret i32 %4
}
",
    ),
    (
        "a chain against the text, before a phi",
        Pass::Merge,
        CHAIN,
        b"define i32 @f(i1 %0) {
  %2 = freeze i32 11
  br i1 %0, label %9, label %7
7:
  %8 = freeze i32 17
  %6 = freeze i32 15
  %4 = freeze i32 13
  br label %9
9:
  %10 = phi i32 [ %2, %1 ], [ %4, %7 ]
  %11 = freeze i32 19
  %13 = freeze i32 23
  ret i32 %10
}
",
    ),
    (
        "the first of a circle that nobody reaches takes the others",
        Pass::Merge,
        b"define i32 @f() {
  ret i32 7
1:
  %2 = freeze i32 11
  br label %5
3:
  %4 = freeze i32 13
  br label %1
5:
  %6 = freeze i32 15
  br label %3
}
",
        b"define i32 @f() {
  ret i32 7
1:
  %2 = freeze i32 11
  %6 = freeze i32 15
  %4 = freeze i32 13
  br label %1
}
",
    ),
    (
        "numbers follow the text of what was joined",
        Pass::Joined,
        CHAIN,
        b"define i32 @f(i1 %0) {
  %2 = freeze i32 11
  br i1 %0, label %7, label %3
3:
  %4 = freeze i32 17
  %5 = freeze i32 15
  %6 = freeze i32 13
  br label %7
7:
  %8 = phi i32 [ %2, %1 ], [ %6, %3 ]
  %9 = freeze i32 19
  %10 = freeze i32 23
  ret i32 %8
}
",
    ),
];

#[test]
fn branches_and_blocks(rt: HostRuntime) -> Result<(), AllocError> {
    let failing = failing(rt.alloc(), &BLOCKS)?;
    assert!(rt; failing.is_none(), "{failing:?}");
    Ok(())
}
