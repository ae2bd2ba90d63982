//! Numbers that are too high or too low, counts past a limit, and chains of type names, each with its
//! line and kind.

use crate::modules::shown::{Row, are_shown, shown, stay};
use std::alloc::{AllocError, Global};
use std::fmt::Write;
use std::string::String;

const NUMBERS: [Row; 23] = [
    // Past 2^32 - 1, at the token.
    ("\n@4294967296 = private global i8 0", "2: number"),
    ("@4294967296\n= internal constant i8 0", "1: number"),
    (
        "@4294967296 = global i8 0",
        "1: not in the profile: @4294967296",
    ),
    ("@g = global ptr\n@4294967296", "2: number"),
    ("@g = global { ptr } {\nptr\n@4294967296 }", "3: number"),
    (
        "@g = global ptr getelementptr (i8,\nptr @4294967296, i64 1)",
        "2: number",
    ),
    (
        "define private void\n@4294967296() {\n  ret void\n}",
        "2: number",
    ),
    (
        "define void @4294967296() {\n  ret void\n}",
        "1: not in the profile: @4294967296",
    ),
    (
        "declare void @4294967296()",
        "1: not in the profile: @4294967296",
    ),
    ("define ptr @f() {\n  ret ptr @4294967296\n}", "2: number"),
    (
        "define void @f() {\n  call void\n@4294967296()\n  ret void\n}",
        "3: number",
    ),
    (
        "define ptr @f() {\n  ret ptr getelementptr (i8, ptr @4294967296, i64 0)\n}",
        "2: number",
    ),
    ("attributes\n#4294967296 = { }", "2: number"),
    (
        "define void @f()\n#4294967296 {\n  ret void\n}",
        "2: number",
    ),
    ("declare void @f()\n\n#4294967296", "3: number"),
    (
        "declare void @h()\ndefine void @f() {\n  call void @h()\n#4294967296\n  ret void\n}",
        "4: number",
    ),
    // The greatest.
    (
        "@4294967295 = private global i8 0",
        "@\"4294967295\" = private global i8 0, align 1\n",
    ),
    (
        "define void @f() #4294967295 {\n  ret void\n}\nattributes #4294967295 = { noinline }",
        "define void @f() noinline {\n  ret void\n}\n",
    ),
    // Digits in quotes are a name.
    (
        "@\"4294967296\" = global i8 0",
        "@\"4294967296\" = global i8 0, align 1\n",
    ),
    // Below the counter: a token that is fine, and a number that is too low.
    (
        "@5 = private global i8 0\n\n@3 = private global i8 0",
        "3: twice",
    ),
    ("define void @f(i8 %5,\ni8 %3) {\n  ret void\n}", "2: twice"),
    (
        "define void @f() {\n7:\n  br label %8\n8:\n  br label %8\n6:\n  ret void\n}",
        "6: twice",
    ),
    (
        "define void @f() {\n  %9 = add i8 1, 2\n  %8 = add i8 1, 2\n  ret void\n}",
        "3: twice",
    ),
];

#[test]
fn numbers_of_names_are_in_range(rt: HostRuntime) -> Result<(), AllocError> {
    are_shown(&rt, rt.alloc(), &NUMBERS)
}

const COUNTS: [Row; 9] = [
    (
        "define void @f() {\n  %1 = alloca\ni8,\ni64\n2147483649\n  ret void\n}",
        "5: limit",
    ),
    (
        "define void @f() {\n  %1 = alloca\ni8,\ni64\n2147483649, align 3\n  ret void\n}",
        "5: limit",
    ),
    (
        "define void @f() {\n  %1 = alloca i8, i64 2147483648\n  ret void\n}",
        "define void @f() {\n  %1 = alloca [2147483648 x i8], align 1\n  ret void\n}\n",
    ),
    (
        "define void @f() {\n  %1 = alloca [1024 x i64], i64\n262145\n  ret void\n}",
        "3: limit",
    ),
    // Past its range a count is no number of its type.
    (
        "define void @f() {\n  %1 = alloca i8, i8\n256\n  ret void\n}",
        "3: number",
    ),
    (
        "define void @f() {\n  %1 = alloca i8, i8\n-1\n  ret void\n}",
        "3: number",
    ),
    (
        "define void @f() {\n  %1 = alloca i8, i64\n18446744073709551616\n  ret void\n}",
        "3: number",
    ),
    // Behind a type name the shape is looked at as it expands.
    (
        "%t = type [65536 x i64]\ndefine void @f() {\n  %1 = alloca\n%t, i64\n65536\n  ret void\n}",
        "4: limit",
    ),
    (
        "define void @f() {\n  %1 = alloca i8, i1 true\n  ret void\n}",
        "2: syntax",
    ),
];

#[test]
fn counts_of_slots_are_within_the_limits(rt: HostRuntime) -> Result<(), AllocError> {
    are_shown(&rt, rt.alloc(), &COUNTS)
}

/// An `alloca` of so many levels of arrays, and this count on a line of its own.
fn nested_slots(alloc: Global, levels: usize, count: &str) -> Result<String, AllocError> {
    let mut text = String::new(alloc);
    let _head = write!(text, "define void @f() {{\n  %1 = alloca ");
    for _ in 0..levels {
        let _open = write!(text, "[1 x ");
    }
    let _scalar = write!(text, "i8");
    for _ in 0..levels {
        let _close = write!(text, "]");
    }
    let _tail = write!(text, ", i64\n{}\n  ret void\n}}\n", count);
    shown(alloc, text.as_str())
}

/// Levels of arrays, a count of slots, and whether they pass the limit of levels.
const SLOTS: [(usize, &str, bool); 4] = [
    (32, "2", true),
    (32, "0", true),
    (32, "1", false),
    (31, "2", false),
];

/// Whether the limit of levels is passed at the count of an `alloca` of so many levels.
fn passes_the_limit(alloc: Global, levels: usize, count: &str) -> Result<bool, AllocError> {
    Ok(nested_slots(alloc, levels, count)?.as_str() == "3: limit")
}

#[test]
fn a_count_of_slots_is_a_level(rt: HostRuntime) -> Result<(), AllocError> {
    for &(levels, count, is_past) in &SLOTS {
        assert!(rt;
            passes_the_limit(rt.alloc(), levels, count)? == is_past,
            "{levels}, {count}"
        );
    }
    Ok(())
}

const INITIALISERS: [Row; 8] = [
    (
        "%T = type i32\n@g = global %T 5",
        "@g = global i32 5, align 4\n",
    ),
    (
        "%T = type i32\n@g = global { %T } { %T 5 }",
        "@g = global { i32 } { i32 5 }, align 4\n",
    ),
    (
        "%T = type i32\n@g = global [1 x %T] [%T 1]",
        "@g = global [1 x i32] [i32 1], align 4\n",
    ),
    (
        "@g = global %T -128\n%T = type %U\n%U = type i8",
        "@g = global i8 -128, align 1\n",
    ),
    (
        "%T = type i8\n@g = global %T 255",
        "@g = global i8 -1, align 1\n",
    ),
    // Out of range, or for no integer, it fits nothing, as the verifier says.
    (
        "%T = type i8\n@g = global %T 256",
        "@g = global i8 false, align 1\n",
    ),
    (
        "%T = type ptr\n@g = global %T 0",
        "@g = global ptr false, align 8\n",
    ),
    (
        "%T = type [2 x i8]\n@g = global %T 0",
        "@g = global [2 x i8] false, align 1\n",
    ),
];

#[test]
fn numbers_stand_behind_type_names(rt: HostRuntime) -> Result<(), AllocError> {
    are_shown(&rt, rt.alloc(), &INITIALISERS)?;
    stay(&rt, rt.alloc(), &INITIALISERS)
}

/// A name and so many further ones, each of which stands for the one before, or holds it twice, and a
/// use of the last of them on a line of its own.
fn chain(alloc: Global, further: usize, twice: bool) -> Result<String, AllocError> {
    let mut text = String::new(alloc);
    let _first = write!(text, "%T0 = type i8\n");
    for i in 0..further {
        let _next = if twice {
            write!(text, "%T{} = type {{ %T{}, %T{} }}\n", i + 1, i, i)
        } else {
            write!(text, "%T{} = type %T{}\n", i + 1, i)
        };
    }
    let _use = write!(text, "@g = global %T{} zeroinitializer\n", further);
    shown(alloc, text.as_str())
}

/// How many names follow the first, whether each holds the one before it twice, and what is printed.
const CHAINS: [(usize, bool, &str); 2] = [
    (999, false, "@g = global i8 zeroinitializer, align 1\n"),
    (
        2,
        true,
        "@g = global { { i8, i8 }, { i8, i8 } } zeroinitializer, align 1\n",
    ),
];

#[test]
fn chains_of_type_names_end(rt: HostRuntime) -> Result<(), AllocError> {
    for &(further, twice, want) in &CHAINS {
        assert!(rt;
            chain(rt.alloc(), further, twice)?.as_str() == want,
            "{further}"
        );
    }
    Ok(())
}

const LEFT_OUT: [Row; 4] = [
    // Where the type of a count may stand, one that is left out is told as such.
    (
        "define void @f() {\n  %1 = alloca i8,\nmetadata",
        "3: not in the profile: metadata",
    ),
    (
        "define void @f() {\n  %1 = alloca i8,\ntarget",
        "3: not in the profile: target",
    ),
    ("define void @f() {\n  %1 = alloca i8,\nptr", "3: syntax"),
    (
        "define void @f(ptr %p) {\n  %1 = load i8, ptr %p,\nmetadata",
        "3: syntax",
    ),
];

#[test]
fn types_are_left_out_where_types_stand(rt: HostRuntime) -> Result<(), AllocError> {
    are_shown(&rt, rt.alloc(), &LEFT_OUT)
}
