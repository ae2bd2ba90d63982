//! The suffix of a module's locals, and a local that an import promotes.
use crate::links::files::linked;
use combined_index::{promoted, suffix};
use std::alloc::{AllocError, Global};

#[test]
fn a_suffix_is_known(rt: HostRuntime) {
    let known = suffix(rt.alloc(), b"abc").expect(&rt, "memory");
    assert!(rt; known.equals(b".llvm.12220867466687316330"));
}

/// A local `g`, which refers to the local `h` beside it.
const REFERRING: &str = "define internal ptr @g() {
  ret ptr @h
}
define internal void @h() {
  ret void
}
";

/// The locals of two files that are promoted where the first imports the symbol 0.
fn promoted_in(alloc: Global, files: &[(&str, &str)]) -> Option<Vec<Vec<u32>>> {
    let index = linked(alloc, files)?;
    let imports = imports(alloc).ok()?;
    promoted(alloc, &index, &imports).ok()
}

/// The symbol 0 for the first of two modules.
fn imports(alloc: Global) -> Result<Vec<Vec<u32>>, AllocError> {
    let first = vec![in alloc; 0]?;
    Ok(vec![in alloc; first, Vec::new(alloc)]?)
}

/// Whether of two lists the first is empty, and the second has the symbol 1.
fn is_second_alone(lists: &[Vec<u32>]) -> bool {
    match lists {
        [first, second] => first.is_empty() && second.as_slice() == [1_u32].as_slice(),
        _ => false,
    }
}

#[test]
fn a_local_is_promoted(rt: HostRuntime) {
    let lists = promoted_in(rt.alloc(), &[("a.ll", ""), ("b.ll", REFERRING)]);
    assert!(rt; is_second_alone(&lists.expect(&rt, "a link")));
}
