//! First faults of tokens, of the grammar and of the stages behind it.

use crate::modules::shown::{Row, are_shown};
use std::alloc::AllocError;

const FIRST_FAULTS: [Row; 13] = [
    // At the end of the text, on the line behind its last line feed.
    ("define i32 @f() {\n  ret i32 0\n", "3: syntax"),
    ("declare void @f(", "1: syntax"),
    ("declare void @f(\n\n", "3: syntax"),
    ("@g = global i32", "1: syntax"),
    // Bytes that are no token, where all before them goes on.
    ("define void @f() {\n  ret void\n}\n\"abc", "4: bad token"),
    ("@g = global i32 \x01", "1: bad token"),
    ("; a comment\n@\"a\\00\" = global i8 0", "2: bad token"),
    ("@\"a", "1: bad token"),
    // The earlier of two faults, whatever their kinds.
    ("@g = global i32 5 5\n\x01", "1: syntax"),
    ("@g = global i32\n\x01 5", "2: bad token"),
    (
        "@g = global i32 5\n@h = global float 5\n@i = global i8 256",
        "2: not in the profile: float",
    ),
    ("@i = global i8 256\n@h = global float 5", "1: number"),
    // A fault of the grammar comes before each of names.
    ("@g = global ptr @h\n@g = global i8 0\n)", "3: syntax"),
];

#[test]
fn the_first_place_counts(rt: HostRuntime) -> Result<(), AllocError> {
    are_shown(&rt, rt.alloc(), &FIRST_FAULTS)
}

const KINDS: [Row; 19] = [
    ("@g = global i8 256", "1: number"),
    ("@g = global i8 -129", "1: number"),
    ("@g = global i8 0, align 3", "1: number"),
    (
        "define void @f() {\n  %x = add i1 2, 0\n  ret void\n}",
        "2: number",
    ),
    ("define i8 @f() {\n  ret i8 %99999999999\n}", "2: number"),
    ("@g = global [2147483649 x i8] zeroinitializer", "1: limit"),
    (
        "@g = global [3 x\n[2000000000 x\ni8]] zeroinitializer",
        "3: limit",
    ),
    (
        "@g = thread_local global i8 0",
        "1: not in the profile: thread_local",
    ),
    ("@5 = global i8 0", "1: not in the profile: @5"),
    (
        "@\"llvm\" = global i8 0",
        "1: not in the profile: @\"llvm\"",
    ),
    ("declare void @f(...)", "1: not in the profile: ..."),
    (
        "declare void @f(i32\n, i128)",
        "2: not in the profile: i128",
    ),
    ("%t = type i1", "1: not in the profile: i1"),
    ("target datalayout = \"E\"", "1: layout"),
    ("target datalayout =\n\"e-p:32:32\"", "2: layout"),
    (
        "target datalayout = \"E\"\ntarget datalayout = \"e\"",
        "1: layout",
    ),
    ("declare private void @f()", "1: syntax"),
    ("@g = external global i32 0", "1: syntax"),
    ("define i32 @f() {\n  ret ptr 5\n}", "2: syntax"),
];

#[test]
fn each_kind_has_its_place(rt: HostRuntime) -> Result<(), AllocError> {
    are_shown(&rt, rt.alloc(), &KINDS)
}

const STAGES: [Row; 7] = [
    // Type names before the limits of shapes.
    (
        "%t = type [2147483648 x i8]\n%u = type [2 x %t]\n%u = type i8",
        "3: twice",
    ),
    (
        "%t = type [2147483648 x i8]\n%u = type [2 x %t]\n%v = type i8",
        "2: limit",
    ),
    // Limits and indices before the names of globals.
    (
        "@p = global ptr @h\n%t = type [2147483648 x i8]\n%u = type [2 x %t]",
        "3: limit",
    ),
    (
        "@p = global ptr @h\n@q = global ptr getelementptr ({ i8 }, ptr @p, i64 0, i32 1)",
        "2: index",
    ),
    // Names of globals before locals.
    (
        "define i32 @f() {\n  ret i32 %x\n}\n@g = global ptr @h",
        "4: unknown",
    ),
    // Locals that are defined before locals that are used, function by function.
    (
        "define i32 @f() {\n  %x = add i32 %y, 1\n  %x = add i32 1, 1\n  ret i32 %x\n}",
        "3: twice",
    ),
    (
        "define i32 @f() {\n  ret i32 %y\n}\ndefine void @g(i8 %a, i8 %a) {\n  ret void\n}",
        "2: unknown",
    ),
];

#[test]
fn stages_come_one_behind_another(rt: HostRuntime) -> Result<(), AllocError> {
    are_shown(&rt, rt.alloc(), &STAGES)
}
