//! Dead code.
use crate::passes::rows::{Pass, Row, failing};
use std::alloc::AllocError;

const NEEDED: [Row; 2] = [
    (
        "a circle of unneeded values goes",
        Pass::Needed,
        b"define i32 @count(i32 %0) {
  %2 = add i32 %0, 1
  %3 = add i32 %2, 1
  %4 = alloca i32
  store i32 %2, ptr %4
  br label %5
5:
  %6 = phi i32 [ %0, %1 ], [ %8, %5 ]
  %7 = phi i32 [ %0, %1 ], [ %9, %5 ]
  %8 = add i32 %6, 1
  %9 = add i32 %7, 1
  %10 = call i32 @getchar()
  %11 = icmp eq i32 %9, %0
  br i1 %11, label %12, label %5
12:
  ret i32 %7
}
declare i32 @getchar()
",
        b"define i32 @count(i32 %0) {
  %2 = add i32 %0, 1
  %4 = alloca i32, align 4
  store i32 %2, ptr %4, align 4
  br label %5
5:
  %7 = phi i32 [ %0, %1 ], [ %9, %5 ]
  %9 = add i32 %7, 1
  %10 = call i32 @getchar()
  %11 = icmp eq i32 %9, %0
  br i1 %11, label %12, label %5
12:
  ret i32 %7
}
",
    ),
    (
        "what is needed stays",
        Pass::Needed,
        b"define i32 @count(i32 %0) {
  %2 = add i32 %0, 1
  %3 = alloca i32, align 4
  store i32 %2, ptr %3, align 4
  br label %4
4:
  %5 = phi i32 [ %0, %1 ], [ %6, %4 ]
  %6 = add i32 %5, 1
  %7 = call i32 @getchar()
  %8 = icmp eq i32 %6, %0
  br i1 %8, label %9, label %4
9:
  ret i32 %5
}
declare i32 @getchar()
",
        b"define i32 @count(i32 %0) {
  %2 = add i32 %0, 1
  %3 = alloca i32, align 4
  store i32 %2, ptr %3, align 4
  br label %4
4:
  %5 = phi i32 [ %0, %1 ], [ %6, %4 ]
  %6 = add i32 %5, 1
  %7 = call i32 @getchar()
  %8 = icmp eq i32 %6, %0
  br i1 %8, label %9, label %4
9:
  ret i32 %5
}
",
    ),
];

#[test]
fn dead_code_goes(rt: HostRuntime) -> Result<(), AllocError> {
    let failing = failing(rt.alloc(), &NEEDED)?;
    assert!(rt; failing.is_none(), "{failing:?}");
    Ok(())
}
