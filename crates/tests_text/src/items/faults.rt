//! First faults of texts: of type definitions and variables, and of functions.

use ir_parse::{ReadError, parse};
use ir_tree::FaultKind;
use std::alloc::Global;

/// Why a text is refused, without the word.
#[derive(Clone, Copy, PartialEq, Eq)]
enum Why {
    Syntax,
    Profile,
    Number,
    Limit,
    Layout,
}

fn reason(kind: &FaultKind) -> Option<Why> {
    match kind {
        FaultKind::Syntax => Some(Why::Syntax),
        FaultKind::Profile { word: _ } => Some(Why::Profile),
        FaultKind::Number => Some(Why::Number),
        FaultKind::Limit => Some(Why::Limit),
        FaultKind::Layout => Some(Why::Layout),
        _ => None,
    }
}

/// Why a text is refused; `None` where it is a module.
fn refused(alloc: Global, text: &[u8]) -> Option<Why> {
    match parse(alloc, text) {
        Err(ReadError::Fault(fault)) => reason(&fault.kind),
        _ => None,
    }
}

/// A text, and why it is refused.
type Row = (&'static [u8], Why);

const VARIABLES: [Row; 21] = [
    // An initialiser stands where `external` isn't written.
    (b"@g = external global i32 0", Why::Syntax),
    (b"@g = global i32", Why::Syntax),
    // One linkage stands before the qualifiers.
    (b"@g = private internal global i32 0", Why::Syntax),
    (b"@g = hidden private global i32 0", Why::Syntax),
    // Parts of the language that are refused.
    (b"@5 = global i32 0", Why::Profile),
    (b"@llvm.used = global i32 0", Why::Profile),
    (b"@g = thread_local global i32 0", Why::Profile),
    (b"%t = type i1", Why::Profile),
    // Numbers are in the range of their type.
    (b"@g = global i8 256", Why::Number),
    (b"@g = global [2 x i8] [i8 1, i8 300]", Why::Number),
    (b"@g = global i32 0, align 3", Why::Number),
    (b"%99999999999 = type opaque", Why::Number),
    // An initialiser ends as it begins, and is a constant.
    (b"@g = global {} {]", Why::Syntax),
    (b"@g = global <{}> <5", Why::Profile),
    (b"@g = global i32 %x", Why::Syntax),
    (b"@g = global [0 x i8] [i1 0]", Why::Profile),
    // A group is named in brackets, and a type is defined by its word.
    (b"@g = global i32 0, comdat(5)", Why::Syntax),
    (b"%t = opaque", Why::Syntax),
    (b"%t = type [2000000000 x [2 x i8]]", Why::Limit),
    // A layout is refused at its string.
    (b"target datalayout = \"E\"", Why::Layout),
    (
        b"@g = global i8 255 define i8 @f() { ret i8 256 }",
        Why::Number,
    ),
];

const FUNCTIONS: [Row; 14] = [
    // A definition has a block, and ends with its brace.
    (b"define void @f() { ret void", Why::Syntax),
    (b"define void @f() { ret void } }", Why::Syntax),
    (b"define void @f() { }", Why::Syntax),
    (b"declare void @f() { ret void }", Why::Syntax),
    // A function under a number is local.
    (b"define void @5() { ret void }", Why::Profile),
    (
        b"declare void @f() nounwind define i32 @g() { ret i128 0 }",
        Why::Profile,
    ),
    (
        b"define void @f() { %x = alloca [2000000000 x [2 x i8]] ret void }",
        Why::Limit,
    ),
    // Written types are those of the arguments.
    (
        b"define void @f() { call void (i32) @g(i64 3) ret void }",
        Why::Syntax,
    ),
    (
        b"define void @f() { call void (i32, ptr) @g(i32 3) ret void }",
        Why::Syntax,
    ),
    (
        b"define void @f() { call void (i32) @g(i32 3, ptr null) ret void }",
        Why::Syntax,
    ),
    // A callee is refused at its token, and a store gives nothing.
    (b"define void @f() { call void 5() ret void }", Why::Syntax),
    (
        b"define void @f() { %x = call void @llvm.lifetime.end.p0() ret void }",
        Why::Syntax,
    ),
    (
        b"define void @f() { call i32 @llvm.lifetime.end.p0() ret void }",
        Why::Profile,
    ),
    (
        b"define void @f() { %x = store i8 1, ptr null ret void }",
        Why::Syntax,
    ),
];

#[test]
fn faults_of_variables_have_their_kinds(rt: HostRuntime) {
    for &(text, why) in &VARIABLES {
        assert!(rt; refused(rt.alloc(), text) == Some(why), "{text:?}");
    }
}

#[test]
fn faults_of_functions_have_their_kinds(rt: HostRuntime) {
    for &(text, why) in &FUNCTIONS {
        assert!(rt; refused(rt.alloc(), text) == Some(why), "{text:?}");
    }
}
