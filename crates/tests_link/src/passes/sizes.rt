//! Long functions, which loops write.
use crate::passes::rows::{Pass, after, first, read};
use block_trim::merge;
use std::alloc::{AllocError, Global};
use std::fmt::Write;

/// A function of a copy of its parameter, and of so many copies each of the one before.
fn copies(alloc: Global, count: u32) -> Result<String, AllocError> {
    let mut text = format!(in alloc; "define i32 @f(i32 %0) {{\n  %c0 = add i32 %0, 0\n")?;
    for before in 0..count {
        let copy = before.saturating_add(1);
        writeln!(text, "  %c{copy} = add i32 %c{before}, 0")?;
    }
    writeln!(text, "  ret i32 %c{count}\n}}")?;
    Ok(text)
}

#[test]
fn a_long_chain_of_copies_goes(rt: HostRuntime) -> Result<(), AllocError> {
    let text = copies(rt.alloc(), 1000)?;
    let Some(made) = after(rt.alloc(), Pass::Optimised, text.as_bytes())? else {
        panic!(rt; "a sound function");
    };
    assert!(rt; made.equals(b"define i32 @f(i32 %0) {\n  ret i32 %0\n}\n"));
    Ok(())
}

/// A function of a first block with an end, of a last one, and of so many others, each of which leads to the one before it,
/// against the text.
fn backward(alloc: Global, count: u32, first: &str) -> Result<String, AllocError> {
    let mut text = format!(in alloc; "define void @f() {{\n  {first}\nb0:\n  unreachable\n")?;
    for before in 0..count {
        let block = before.saturating_add(1);
        writeln!(
            text,
            "b{block}:\n  %x{block} = freeze i32 1\n  br label %b{before}"
        )?;
    }
    writeln!(text, "}}")?;
    Ok(text)
}

/// How many blocks a function has when they are merged.
fn blocks_left(alloc: Global, text: &str) -> Option<usize> {
    let module = read(alloc, text.as_bytes())?;
    let merged = merge(alloc, first(&module)?).ok()?;
    Some(merged.blocks.len())
}

#[test]
fn a_long_chain_becomes_one_block(rt: HostRuntime) -> Result<(), AllocError> {
    let reached = backward(rt.alloc(), 60_000, "br label %b60000")?;
    assert!(rt; blocks_left(rt.alloc(), reached.as_str()) == Some(1));
    let apart = backward(rt.alloc(), 60_000, "unreachable")?;
    assert!(rt; blocks_left(rt.alloc(), apart.as_str()) == Some(2));
    Ok(())
}
