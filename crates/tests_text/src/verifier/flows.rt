//! What verification finds of control flow goes with the module, which no clause says of any function.
use crate::parts::read;
use ir_flow::Flow;
use ir_verify::verify;
use std::alloc::Global;

/// The places of the blocks that lead to a block, and whether it is reached.
type Entered = (&'static [u32], bool);

/// What a row shows, a module of one global value, and how each of its blocks is entered; none of a variable.
type Row = (&'static str, &'static [u8], Option<&'static [Entered]>);

const ROWS: [Row; 6] = [
    (
        "one block",
        b"define void @f() {
  ret void
}
",
        Some(&[(&[], true)]),
    ),
    (
        "two ways that meet",
        b"define void @f(i1 %0) {
  br i1 %0, label %2, label %3
2:
  br label %4
3:
  br label %4
4:
  ret void
}
",
        Some(&[(&[], true), (&[0], true), (&[0], true), (&[1, 2], true)]),
    ),
    (
        "a block to which nothing leads",
        b"define void @f() {
  ret void
1:
  ret void
}
",
        Some(&[(&[], true), (&[], false)]),
    ),
    (
        "two blocks that lead to each other alone",
        b"define void @f() {
  ret void
1:
  br label %2
2:
  br label %1
}
",
        Some(&[(&[], true), (&[2], false), (&[1], false)]),
    ),
    ("a declaration", b"declare void @f()\n", Some(&[])),
    ("a variable", b"@g = global i32 0\n", None),
];

/// Whether the blocks are entered so.
fn is_entered(flow: &Flow, wanted: &[Entered]) -> bool {
    let count = flow.reached.size();
    if wanted.len() != count as usize || flow.edges.len() != count as usize {
        return false;
    }
    for place in 0..count {
        let (edges, reached) = wanted[place as usize];
        if flow.edges.of(place as usize) != edges || flow.reached.has(place) != reached {
            return false;
        }
    }
    true
}

/// Whether the blocks of a module's one global value are told to be entered so.
fn is_told(alloc: Global, text: &[u8], wanted: Option<&[Entered]>) -> bool {
    let Some(parsed) = read(alloc, text) else {
        return false;
    };
    let Ok(module) = verify(alloc, parsed) else {
        return false;
    };
    let (_, flows) = module.into_parts();
    match (flows.as_slice(), wanted) {
        ([Some(flow)], Some(wanted)) => is_entered(flow, wanted),
        ([None], None) => true,
        _ => false,
    }
}

#[test]
fn control_flow_goes_with_the_module(rt: HostRuntime) {
    for &(name, text, wanted) in &ROWS {
        assert!(rt; is_told(rt.alloc(), text, wanted), "{name}");
    }
}
