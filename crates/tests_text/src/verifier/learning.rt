//! What is learned of a function.
use crate::parts::{function, read};
use ir_tree::Function;
use ir_verify::learned;
use std::alloc::{AllocError, Global};

/// A parameter, a block, and a phi, which stands where none may.
const TEXT: &[u8] = b"define void @f(ptr %0) {
  %2 = phi i8 [ 0, %1 ]
  ret void
}
";

/// Whether the parameter, the phi and the block of a function are known, and nothing under the number of the entry.
fn are_known(alloc: Global, f: &Function) -> Result<bool, AllocError> {
    let known = learned(alloc, f)?;
    let locals = &known.locals;
    let named = locals.get(0).is_some() && locals.get(1).is_none() && locals.get(2).is_some();
    Ok(named && known.places.get(1) == Some(0))
}

/// Whether this is so of the function `f` of a text.
fn are_known_in(alloc: Global, text: &[u8]) -> Result<bool, AllocError> {
    let Some(parsed) = read(alloc, text) else {
        return Ok(false);
    };
    match function(parsed.module(), b"f") {
        Some(f) => are_known(alloc, f),
        None => Ok(false),
    }
}

#[test]
fn parameters_phis_and_blocks_are_learned(rt: HostRuntime) -> Result<(), AllocError> {
    assert!(rt; are_known_in(rt.alloc(), TEXT)?);
    Ok(())
}
