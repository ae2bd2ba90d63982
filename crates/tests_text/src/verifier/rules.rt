//! Each rule kept and broken, with the line at fault, and the order of faults.
use crate::parts::read;
use ir_tree::{Parsed, Rule};
use ir_verify::{VerifyError, VerifyFault, verify};
use std::alloc::{AllocError, Global};

/// What a row shows, a module that begins with its function, and the line and the rule of the fault, where there is one.
type Row = (&'static str, &'static [u8], Option<(u32, Rule)>);

const ROWS: [Row; 40] = [
    ("a module without global values", b"", None),
    // Types.
    (
        "a sum of a number, and one of that sum",
        b"define void @f(i32 %0) {
  %2 = add i32 %0, 1
  %3 = add i32 %2, 1
  ret void
}
",
        None,
    ),
    (
        "a sum of a pointer",
        b"define void @f(ptr %0) {
  %2 = add i32 %0, 1
  ret void
}
",
        Some((2, Rule::TypeMismatch)),
    ),
    (
        "a select between two types",
        b"define void @f(i1 %0) {
  %2 = select i1 %0, i32 1, ptr null
  ret void
}
",
        Some((2, Rule::TypeMismatch)),
    ),
    (
        "a call that gives nothing, under a name",
        b"define void @f() {
  %1 = call void null()
  ret void
}
",
        Some((2, Rule::TypeMismatch)),
    ),
    // What is available.
    (
        "a use before its definition",
        b"define void @f(i32 %0) {
  %2 = add i32 %3, 1
  %3 = add i32 %0, 1
  ret void
}
",
        Some((2, Rule::NotAvailable)),
    ),
    (
        "a use of what one path alone defines",
        b"define void @f(i32 %0, i1 %1) {
  br i1 %1, label %3, label %5
3:
  %4 = add i32 %0, 1
  br label %6
5:
  br label %6
6:
  %7 = add i32 %4, 1
  ret void
}
",
        Some((9, Rule::NotAvailable)),
    ),
    (
        "a phi that takes it from that path",
        b"define void @f(i32 %0, i1 %1) {
  br i1 %1, label %3, label %5
3:
  %4 = add i32 %0, 1
  br label %6
5:
  br label %6
6:
  %7 = phi i32 [ %4, %3 ], [ 0, %5 ]
  ret void
}
",
        None,
    ),
    (
        "a phi that takes it from the other path",
        b"define void @f(i32 %0, i1 %1) {
  br i1 %1, label %3, label %5
3:
  %4 = add i32 %0, 1
  br label %6
5:
  br label %6
6:
  %7 = phi i32 [ 0, %3 ], [ %4, %5 ]
  ret void
}
",
        Some((9, Rule::NotAvailable)),
    ),
    (
        "a block that isn't reached uses what it likes",
        b"define void @f(i32 %0) {
  %2 = add i32 %0, 1
  ret void
3:
  %4 = add i32 %4, 1
  br label %3
}
",
        None,
    ),
    // Phis and edges.
    (
        "a phi that lacks an entry",
        b"define void @f(i32 %0, i1 %1) {
  br i1 %1, label %3, label %5
3:
  %4 = add i32 %0, 1
  br label %6
5:
  br label %6
6:
  %7 = phi i32 [ 0, %3 ]
  ret void
}
",
        Some((9, Rule::PhiEdges)),
    ),
    (
        "equal entries for two edges from one block",
        b"define void @f(i1 %0) {
  br i1 %0, label %2, label %2
2:
  %3 = phi i32 [ 7, %1 ], [ 7, %1 ]
  unreachable
}
",
        None,
    ),
    (
        "entries that differ for two edges from one block",
        b"define void @f(i1 %0) {
  br i1 %0, label %2, label %2
2:
  %3 = phi i32 [ 7, %1 ], [ 8, %1 ]
  unreachable
}
",
        Some((4, Rule::PhiEdges)),
    ),
    (
        "a phi behind a sum",
        b"define void @f() {
  br label %1
1:
  %2 = add i32 1, 1
  %3 = phi i32 [ 7, %0 ]
  ret void
}
",
        Some((5, Rule::PhiPlace)),
    ),
    (
        "a phi in the entry, to which an edge leads",
        b"define void @f() {
  %1 = phi i32 [ 7, %0 ]
  br label %0
}
",
        Some((2, Rule::PhiPlace)),
    ),
    (
        "an edge to the second block",
        b"define void @f() {
  br label %1
1:
  br label %1
}
",
        None,
    ),
    (
        "an edge to the entry",
        b"define void @f() {
  br label %1
1:
  br label %0
}
",
        Some((4, Rule::EntryBranch)),
    ),
    // Indices.
    (
        "the index of a member",
        b"define void @f(ptr %0) {
  %2 = getelementptr inbounds <{ i8, i32 }>, ptr %0, i32 0, i32 1
  ret void
}
",
        None,
    ),
    (
        "an index behind the last member",
        b"define void @f(ptr %0) {
  %2 = getelementptr inbounds <{ i8, i32 }>, ptr %0, i32 0, i32 2
  ret void
}
",
        Some((2, Rule::Index)),
    ),
    (
        "an index of 64 bits into a structure",
        b"define void @f(ptr %0) {
  %2 = getelementptr inbounds <{ i8, i32 }>, ptr %0, i32 0, i64 1
  ret void
}
",
        Some((2, Rule::Index)),
    ),
    (
        "an index into an array, which may be any number",
        b"define void @f(i32 %0, ptr %1) {
  %3 = getelementptr [4 x i32], ptr %1, i32 0, i32 %0
  ret void
}
",
        None,
    ),
    // Casts and comparisons.
    (
        "`zext i8 to i32`",
        b"define void @f(i8 %0) {
  %2 = zext i8 %0 to i32
  ret void
}
",
        None,
    ),
    (
        "`zext i32 to i32`",
        b"define void @f(i32 %0) {
  %2 = zext i32 %0 to i32
  ret void
}
",
        Some((2, Rule::Cast)),
    ),
    (
        "`zext i32 to i8`",
        b"define void @f(i32 %0) {
  %2 = zext i32 %0 to i8
  ret void
}
",
        Some((2, Rule::Cast)),
    ),
    (
        "`sext i1 to i64`",
        b"define void @f(i1 %0) {
  %2 = sext i1 %0 to i64
  ret void
}
",
        None,
    ),
    (
        "`sext i64 to i64`",
        b"define void @f(i64 %0) {
  %2 = sext i64 %0 to i64
  ret void
}
",
        Some((2, Rule::Cast)),
    ),
    (
        "`sext i64 to i1`",
        b"define void @f(i64 %0) {
  %2 = sext i64 %0 to i1
  ret void
}
",
        Some((2, Rule::Cast)),
    ),
    (
        "`trunc i32 to i8`",
        b"define void @f(i32 %0) {
  %2 = trunc i32 %0 to i8
  ret void
}
",
        None,
    ),
    (
        "`trunc i32 to i32`",
        b"define void @f(i32 %0) {
  %2 = trunc i32 %0 to i32
  ret void
}
",
        Some((2, Rule::Cast)),
    ),
    (
        "`trunc i8 to i32`",
        b"define void @f(i8 %0) {
  %2 = trunc i8 %0 to i32
  ret void
}
",
        Some((2, Rule::Cast)),
    ),
    (
        "`zext ptr to i64`",
        b"define void @f(ptr %0) {
  %2 = zext ptr %0 to i64
  ret void
}
",
        Some((2, Rule::Cast)),
    ),
    (
        "a pointer that is frozen",
        b"define void @f() {
  %1 = freeze ptr null
  ret void
}
",
        Some((2, Rule::Cast)),
    ),
    (
        "pointers compared as unsigned",
        b"define void @f(ptr %0) {
  %2 = icmp ult ptr %0, null
  ret void
}
",
        None,
    ),
    (
        "pointers compared as signed",
        b"define void @f(ptr %0) {
  %2 = icmp slt ptr %0, null
  ret void
}
",
        Some((2, Rule::Cast)),
    ),
    // Cases.
    (
        "three cases that differ",
        b"define void @f(i8 %0) {
  switch i8 %0, label %2 [ i8 0, label %2 i8 255, label %2 i8 7, label %2 ]
2:
  ret void
}
",
        None,
    ),
    (
        "the first case again as the third",
        b"define void @f(i8 %0) {
  switch i8 %0, label %2 [ i8 0, label %2 i8 255, label %2 i8 0, label %2 ]
2:
  ret void
}
",
        Some((2, Rule::CaseTwice)),
    ),
    (
        "two cases that differ",
        b"define void @f(i32 %0) {
  switch i32 %0, label %2 [ i32 1, label %2 i32 2, label %2 ]
2:
  unreachable
}
",
        None,
    ),
    (
        "one case twice",
        b"define void @f(i32 %0) {
  switch i32 %0, label %2 [ i32 1, label %2 i32 1, label %2 ]
2:
  unreachable
}
",
        Some((2, Rule::CaseTwice)),
    ),
    // The least line, and there the least rule.
    (
        "two faults on two lines, the greater rule first",
        b"define void @f(i32 %0, ptr %1) {
  %3 = trunc i32 %0 to i32
  %4 = add i32 %1, 1
  ret void
}
",
        Some((2, Rule::Cast)),
    ),
    (
        "two faults on one line",
        b"define void @f(i32 %0, ptr %1) {
  %3 = trunc i32 %0 to i32 %4 = add i32 %1, 1
  ret void
}
",
        Some((2, Rule::TypeMismatch)),
    ),
];

/// The line and the rule of a fault; on no line where it isn't in the first function.
fn place(fault: &VerifyFault) -> (u32, Rule) {
    match fault.function {
        Some(0) => (fault.line, fault.kind),
        _ => (0, fault.kind),
    }
}

/// The place of the fault that a module is refused for.
fn refused(alloc: Global, parsed: Parsed) -> Result<Option<(u32, Rule)>, AllocError> {
    match verify(alloc, parsed) {
        Ok(_) => Ok(None),
        Err(VerifyError::Fault(fault)) => Ok(Some(place(&fault))),
        Err(VerifyError::NoMemory) => Err(AllocError),
    }
}

/// Whether a text is read, and the fault for which it is refused is this one or none.
fn is_so(alloc: Global, text: &[u8], wanted: Option<(u32, Rule)>) -> Result<bool, AllocError> {
    let Some(parsed) = read(alloc, text) else {
        return Ok(false);
    };
    let told = refused(alloc, parsed)?;
    Ok(told == wanted)
}

#[test]
fn rules_are_kept_and_broken(rt: HostRuntime) -> Result<(), AllocError> {
    for &(name, text, broken) in &ROWS {
        assert!(rt; is_so(rt.alloc(), text, broken)?, "{name}");
    }
    Ok(())
}
