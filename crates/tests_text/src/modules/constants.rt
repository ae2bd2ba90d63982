//! Constants behind the types that stand before them, in modules that are read again from their print.

use crate::modules::shown::{Row, are_shown, stay};
use std::alloc::AllocError;

const CONSTANTS: [Row; 10] = [
    // `poison` behind a type name is of the type that the name stands for.
    (
        "%t = type i32\n@g = global %t poison",
        "@g = global i32 poison, align 4\n",
    ),
    (
        "@g = global %t poison\n%t = type %u\n%u = type ptr",
        "@g = global ptr poison, align 8\n",
    ),
    (
        "%t = type i8\n@g = global { %t, [1 x %t] } { %t poison, [1 x %t] [%t poison] }",
        "@g = global { i8, [1 x i8] } { i8 poison, [1 x i8] [i8 poison] }, align 1\n",
    ),
    (
        "%t = type [2 x i8]\n@g = global %t poison",
        "@g = global [2 x i8] poison, align 1\n",
    ),
    // A number behind a name, or behind a pointer, has no type there, and fits neither.
    (
        "%t = type i8\n@g = global %t 300",
        "@g = global i8 false, align 1\n",
    ),
    ("@g = global ptr 300", "@g = global ptr false, align 8\n"),
    (
        "%t = type i32\n@g = global %t zeroinitializer",
        "@g = global i32 zeroinitializer, align 4\n",
    ),
    (
        "%t = type i32\n@g = global %t null",
        "@g = global i32 null, align 4\n",
    ),
    // Types that differ, which only the verifier refuses.
    (
        "@g = global i32 [i8 1, ptr poison]",
        "@g = global i32 [i8 1, ptr poison], align 4\n",
    ),
    (
        "define ptr @f() {\n  ret i8 true\n}",
        "define ptr @f() {\n  ret i8 true\n}\n",
    ),
];

#[test]
fn constants_are_read_again(rt: HostRuntime) -> Result<(), AllocError> {
    are_shown(&rt, rt.alloc(), &CONSTANTS)?;
    stay(&rt, rt.alloc(), &CONSTANTS)
}
