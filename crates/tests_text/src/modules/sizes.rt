//! Prefixes of texts, texts that nest deep, and type names that stand for many shapes.

use ir_parse::{ReadError, parse};
use ir_tree::FaultKind;
use std::alloc::{AllocError, Global};
use std::fmt::Write;
use std::string::String;

const TEXT: &[u8] = b"@g = global i8 0
define void @h() { ret void }
declare void @f()
";

/// The ends of those prefixes of a text that are read as modules.
fn ends_read(alloc: Global, text: &[u8]) -> Result<Vec<usize>, AllocError> {
    let mut ends = Vec::new(alloc);
    for end in 0..=text.len() {
        match parse(alloc, &text[..end]) {
            Ok(_) => ends.push(end)?,
            Err(ReadError::NoMemory) => return Err(AllocError),
            Err(ReadError::Fault(_)) => {}
        }
    }
    Ok(ends)
}

#[test]
fn prefixes_are_read_where_an_item_ends(rt: HostRuntime) -> Result<(), AllocError> {
    let ends = ends_read(rt.alloc(), TEXT)?;
    assert!(rt; ends.as_slice() == [0, 16, 17, 46, 47, 64, 65].as_slice());
    Ok(())
}

/// A text with so many brackets that nothing closes, whose end is its first fault.
fn stops_at_the_end(alloc: Global, count: usize) -> Result<bool, AllocError> {
    let mut text = Vec::from_slice(alloc, b"!0 = !".as_slice())?;
    for _ in 0..count {
        text.push(b'{')?;
    }
    text.push(b'\n')?;
    match parse(alloc, &text) {
        Err(ReadError::Fault(fault)) => Ok(
            fault.line == 2 && matches!(fault.kind, FaultKind::Syntax),
        ),
        _ => Ok(false),
    }
}

#[test]
fn open_brackets_are_read_without_recursion(rt: HostRuntime) -> Result<(), AllocError> {
    assert!(rt; stops_at_the_end(rt.alloc(), 1_000_000)?);
    Ok(())
}

/// Type names on a line each, the first of 8 bits and each other of two of the one before, the last first
/// or not, and so many.
fn doubled(alloc: Global, count: usize, falling: bool) -> String {
    let mut text = String::new(alloc);
    for row in 0..count {
        let place = if falling { count - 1 - row } else { row };
        let _written = if place == 0 {
            write!(text, "%t0 = type i8\n")
        } else {
            write!(
                text,
                "%t{} = type {{ %t{}, %t{} }}\n",
                place,
                place - 1,
                place - 1
            )
        };
    }
    text
}

/// The line on which a limit is passed, or none.
fn limit_of(alloc: Global, text: &str) -> Result<Option<u32>, AllocError> {
    match parse(alloc, text.as_bytes()) {
        Err(ReadError::NoMemory) => Err(AllocError),
        Err(ReadError::Fault(fault)) if matches!(fault.kind, FaultKind::Limit) => {
            Ok(Some(fault.line))
        }
        _ => Ok(None),
    }
}

#[test]
fn shapes_of_names_are_not_spelled_out(rt: HostRuntime) -> Result<(), AllocError> {
    for &(count, falling, line) in &[
        (32, false, None),
        (33, false, Some(33)),
        (33, true, Some(1)),
    ] {
        let text = doubled(rt.alloc(), count, falling);
        assert!(rt; limit_of(rt.alloc(), text.as_str())? == line, "{count}");
    }
    Ok(())
}
