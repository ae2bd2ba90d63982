//! Edits of a loop that counts to its parameter.
use crate::parts::{function, read};
use ir_edit::{renumber, shift_numbers, substitute};
use ir_print::print_function;
use ir_tree::{Function, Operand};
use std::alloc::{AllocError, Global};

const COUNTING: &[u8] = b"define i32 @count(i32 %0) {
  br label %2
2:
  %3 = phi i32 [ 1, %1 ], [ %4, %2 ]
  %4 = add i32 %3, 1
  %5 = icmp eq i32 %4, %0
  br i1 %5, label %6, label %2
6:
  ret i32 %3
}
";

/// Each number is greater by 7.
const SHIFTED: &[u8] = b"define i32 @count(i32 %7) {
  br label %9
9:
  %10 = phi i32 [ 1, %8 ], [ %11, %9 ]
  %11 = add i32 %10, 1
  %12 = icmp eq i32 %11, %7
  br i1 %12, label %13, label %9
13:
  ret i32 %10
}
";

/// Each use of the phi is one of the sum, and each of the sum one of the phi.
const SWAPPED: &[u8] = b"define i32 @count(i32 %0) {
  br label %2
2:
  %3 = phi i32 [ 1, %1 ], [ %3, %2 ]
  %4 = add i32 %4, 1
  %5 = icmp eq i32 %3, %0
  br i1 %5, label %6, label %2
6:
  ret i32 %4
}
";

/// Whether a function is printed so.
fn shows(alloc: Global, f: &Function, text: &[u8]) -> Result<bool, AllocError> {
    Ok(print_function(alloc, f)?.equals(text))
}

fn renumbered_shows(alloc: Global, f: &Function, text: &[u8]) -> Result<bool, AllocError> {
    let renumbered = renumber(alloc, f)?;
    shows(alloc, &renumbered, text)
}

/// Whether greater numbers are printed so, and those in the order of the text so.
fn shifted_shows(
    alloc: Global,
    f: &Function,
    text: &[u8],
    again: &[u8],
) -> Result<bool, AllocError> {
    let shifted = shift_numbers(alloc, f, 7)?;
    let shown = shows(alloc, &shifted, text)?;
    let back = renumbered_shows(alloc, &shifted, again)?;
    Ok(shown && back)
}

fn swapped_shows(alloc: Global, f: &Function, text: &[u8]) -> Result<bool, AllocError> {
    let others = [(3, Operand::Local(4)), (4, Operand::Local(3))];
    let swapped = substitute(alloc, f, &others)?;
    shows(alloc, &swapped, text)
}

/// Whether no number is left for one that is greater by so much.
fn is_too_much(alloc: Global, f: &Function, by: u32) -> bool {
    shift_numbers(alloc, f, by).is_err()
}

/// Whether each edit of a function is printed as it should be.
fn edits_show(alloc: Global, f: &Function) -> Result<bool, AllocError> {
    let shifted = shifted_shows(alloc, f, SHIFTED, COUNTING)?;
    let swapped = swapped_shows(alloc, f, SWAPPED)?;
    Ok(shifted && swapped && is_too_much(alloc, f, u32::MAX))
}

/// Whether this is so of the function `count` of a text.
fn edits_show_in(alloc: Global, text: &[u8]) -> Result<bool, AllocError> {
    let Some(parsed) = read(alloc, text) else {
        return Ok(false);
    };
    match function(parsed.module(), b"count") {
        Some(f) => edits_show(alloc, f),
        None => Ok(false),
    }
}

#[test]
fn numbers_and_uses_change(rt: HostRuntime) -> Result<(), AllocError> {
    assert!(rt; edits_show_in(rt.alloc(), COUNTING)?);
    Ok(())
}
