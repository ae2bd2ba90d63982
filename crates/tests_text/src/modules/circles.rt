//! A graph, and its places that a walk leads back to.

use ir_parse_stages::{Circles, Graph};
use std::alloc::Global;

/// Of three places, the second leads to the third and back, the first to the second.
fn chain(alloc: Global) -> Option<Graph> {
    let mut graph = Graph::new(alloc);
    for target in [1, 2, 1] {
        let mut row = Vec::new(alloc);
        row.push(target).ok()?;
        graph.push(row).ok()?;
    }
    Some(graph)
}

/// Which of four places lie on a circle.
fn on_circles(alloc: Global, graph: Graph) -> Option<Vec<bool>> {
    let circles = Circles::of(alloc, graph).ok()?;
    let mut found = Vec::new(alloc);
    for place in 0..4 {
        found.push(circles.holds(alloc, place).ok()?).ok()?;
    }
    Some(found)
}

#[test]
fn circles_are_found(rt: HostRuntime) {
    let graph = chain(rt.alloc()).expect(&rt, "memory");
    let found = on_circles(rt.alloc(), graph).expect(&rt, "memory");
    assert!(rt; found.as_slice() == [false, true, true, false].as_slice());
}
