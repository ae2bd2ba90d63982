//! Names and numbers of types, globals and locals.

use crate::modules::shown::{Row, are_shown};
use std::alloc::AllocError;

const GLOBALS: [Row; 10] = [
    ("@g = global i8 0\n@g = global i8 1", "2: twice"),
    ("@g = global i8 0\ndeclare void @g()", "2: twice"),
    ("@g = global i8 0\n@\"g\" = global i8 1", "2: twice"),
    (
        "@5 = internal global i8 0\n@\"5\" = internal global i8 0",
        "2: twice",
    ),
    (
        "@5 = internal global i8 0\n@4 = internal global i8 0",
        "2: twice",
    ),
    ("@g = global ptr @h", "1: unknown"),
    ("define ptr @f() {\n  ret ptr @g\n}", "2: unknown"),
    // One that is dropped neither defines its name nor uses another.
    ("declare void @llvm.lifetime.start.p0(i64, ptr)", ""),
    ("@\"5\" = global i8 0", "@\"5\" = global i8 0, align 1\n"),
    (
        "@5 = internal global i8 0\n@6 = internal global ptr @5",
        "@\"5\" = internal global i8 0, align 1\n@\"6\" = internal global ptr @\"5\", align 8\n",
    ),
];

#[test]
fn globals_stand_once(rt: HostRuntime) -> Result<(), AllocError> {
    are_shown(&rt, rt.alloc(), &GLOBALS)
}

const TYPES: [Row; 7] = [
    ("%t = type opaque", ""),
    (
        "%t = type opaque\n@g = global %t zeroinitializer",
        "2: unknown",
    ),
    ("@g = global %t zeroinitializer", "1: unknown"),
    ("%t = type { i8, %t }", "1: unknown"),
    ("%t = type i8\n%t = type i8", "2: twice"),
    (
        "%t = type { i8, %u }\n%u = type [2 x i32]\n@g = global %t zeroinitializer",
        "@g = global { i8, [2 x i32] } zeroinitializer, align 4\n",
    ),
    (
        "@a = global [4 x i8] zeroinitializer\n@p = global ptr getelementptr ([4 x i8], ptr @a, i64 0, i64 3)",
        "@a = global [4 x i8] zeroinitializer, align 1\n@p = global ptr getelementptr (i8, ptr @a, i64 3), align 8\n",
    ),
];

#[test]
fn types_expand(rt: HostRuntime) -> Result<(), AllocError> {
    are_shown(&rt, rt.alloc(), &TYPES)
}

const LOCALS: [Row; 9] = [
    // A name in quotes is no number.
    ("define i32 @f(i32 %\"0\") {\n  ret i32 %0\n}", "2: unknown"),
    (
        "define i32 @f(i32 %0) {\n  ret i32 %0\n}",
        "define i32 @f(i32 %0) {\n  ret i32 %0\n}\n",
    ),
    (
        "define i32 @f(i32 %\"0\") {\n  ret i32 %\"0\"\n}",
        "define i32 @f(i32 %0) {\n  ret i32 %0\n}\n",
    ),
    (
        "define i32 @f(i32 %x) {\n  %x = add i32 1, 2\n  ret i32 %x\n}",
        "2: twice",
    ),
    (
        "define i32 @f() {\n  %1 = add i32 1, 2\n  %1 = add i32 1, 2\n  ret i32 %1\n}",
        "3: twice",
    ),
    ("define i32 @f() {\n  ret i32 %x\n}", "2: unknown"),
    ("define i32 @f() {\nb:\n  ret i32 %b\n}", "3: unknown"),
    ("define void @f(i32 %x) {\n  br label %x\n}", "2: unknown"),
    // A value may be used before the text defines it.
    (
        "define i32 @f() {\n  br label %b\na:\n  ret i32 %x\nb:\n  %x = add i32 1, 2\n  br label %a\n}",
        "define i32 @f() {\n  br label %2\n1:\n  ret i32 %3\n2:\n  %3 = add i32 1, 2\n  br label %1\n}\n",
    ),
];

#[test]
fn locals_are_numbered_anew(rt: HostRuntime) -> Result<(), AllocError> {
    are_shown(&rt, rt.alloc(), &LOCALS)
}

const COUNTERS: [Row; 7] = [
    // 2^32 - 1 may be written, as a label too, and no number past it.
    (
        "define void @main(i8 %4294967295) {\n  ret void\n}",
        "define void @main(i8 %0) {\n  ret void\n}\n",
    ),
    (
        "define void @f() {\n4294967295:\n  ret void\n}",
        "define void @f() {\n  ret void\n}\n",
    ),
    (
        "define void @main(i8 %4294967296) {\n  ret void\n}",
        "1: number",
    ),
    // What has no name takes the numbers behind it, which nothing can be used by.
    (
        "declare void @f(i8 %4294967295, i8)",
        "declare void @f(i8, i8)\n",
    ),
    (
        "define i8 @f(i8 %4294967295) {\n  add i8 1, 2\n  %x = add i8 3, 4\n  sub i8 %x, %4294967295\n  ret i8 %x\n}",
        "define i8 @f(i8 %0) {\n  %2 = add i8 1, 2\n  %3 = add i8 3, 4\n  %4 = sub i8 %3, %0\n  ret i8 %3\n}\n",
    ),
    // Each number that is written later is below the counter.
    (
        "define void @f(i8 %4294967295) {\n  %7 = add i8 1, 2\n  ret void\n}",
        "2: twice",
    ),
    (
        "define void @f(i8 %4294967295) {\n  %4294967295 = add i8 1, 2\n  ret void\n}",
        "2: twice",
    ),
];

#[test]
fn numbers_go_on_behind_the_greatest_that_is_written(rt: HostRuntime) -> Result<(), AllocError> {
    are_shown(&rt, rt.alloc(), &COUNTERS)
}
