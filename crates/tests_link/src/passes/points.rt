//! Facts at the points of functions.
use crate::passes::rows::{first, read};
use ir_facts::{Fact, facts};
use std::alloc::{AllocError, Global};

/// Whether a fact is of this local and holds at these points.
fn is_fact(fact: &Fact, local: u32, points: &[bool]) -> bool {
    if fact.local != local || fact.at.size() as usize != points.len() {
        return false;
    }
    for point in 0..fact.at.size() {
        if fact.at.has(point) != points[point as usize] {
            return false;
        }
    }
    true
}

/// A module, and of each fact of its first function the local, and at which points it holds.
type Row = (&'static [u8], &'static [(u32, &'static [bool])]);

const POINTS: [Row; 3] = [
    // A phi gets a new value in the head of a loop, and is copied in its body.
    (
        b"define void @f() {
  br label %1
1:
  %2 = phi i32 [ 0, %0 ], [ %5, %3 ]
  br label %3
3:
  %4 = add i32 %2, 0
  %5 = add i32 %4, %4
  br label %1
}
",
        &[(4, &[false, false, false, true, true])],
    ),
    // A phi takes a parameter or itself.
    (
        b"define void @f(i32 %0) {
  br label %2
2:
  %3 = phi i32 [ %0, %1 ], [ %3, %2 ]
  br label %2
}
",
        &[(3, &[false, true])],
    ),
    // A block without predecessors stands behind one that returns.
    (
        b"define i32 @f(i32 %0) {
  %2 = add i32 %0, 0
  ret i32 %2
3:
  %4 = add i32 %2, 0
  ret i32 %4
}
",
        &[
            (2, &[false, true, true, true]),
            (4, &[false, false, true, true]),
        ],
    ),
];

/// Whether facts are of these locals and hold at these points.
fn are_facts(found: &[Fact], wanted: &[(u32, &[bool])]) -> bool {
    let mut same = found.len() == wanted.len();
    for (fact, (local, points)) in found.iter().zip(wanted) {
        same = same && is_fact(fact, *local, points);
    }
    same
}

/// Whether the facts of a module's first function are these.
fn holds_so(alloc: Global, text: &[u8], wanted: &[(u32, &[bool])]) -> Result<bool, AllocError> {
    let Some(module) = read(alloc, text) else {
        return Ok(false);
    };
    let Some(f) = first(&module) else {
        return Ok(false);
    };
    let found = facts(alloc, f)?;
    Ok(are_facts(&found, wanted))
}

#[test]
fn facts_hold_at_their_points(rt: HostRuntime) -> Result<(), AllocError> {
    for &(text, wanted) in &POINTS {
        assert!(rt; holds_so(rt.alloc(), text, wanted)?, "{text:?}");
    }
    Ok(())
}
