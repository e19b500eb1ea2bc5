//! Pairs of ends that are dropped: how many steps that takes, and what is left.
ghost use Rattle.std.specs.Prelude.{◌≡◌};

use mt_base::Steps;
use mt_edges::{Edge, Edges};
use std::process::Abort;

/// Adds a pair between two of four ends.
fn add(rt: &impl Abort, edges: &mut Edges, a: u32, b: u32, first: u32, last: u32)
    requires { edges.old.ends ≡ 4 }
    ensures { edges.new.ends ≡ 4 }
{
    edges.reserve(1).expect(rt, "memory");
    assert!(rt; a < b && b < 4 && first <= last && last < 10_014_400);
    assert!(rt; edges.get(a, b).is_none());
    edges.add(Edge {
        a,
        b,
        first,
        last,
        solid: false,
    });
    assert!(rt; edges.get(a, b).is_some());
}

/// The pairs of the first end are dropped in so many steps, and one pair is left.
fn check_drop(rt: &impl Abort, edges: &mut Edges, wanted: u64) {
    let mut steps = Steps::new();
    edges.drop_all(0, &mut steps);
    assert!(rt; steps.get() == wanted);
    let left = edges.due(0, 10_014_400).expect(rt, "memory");
    assert!(rt; left.len() == 1);
}

#[test]
fn dropped_pairs_cost_their_steps(rt: HostRuntime) {
    let mut edges = Edges::make(rt.alloc(), 4).expect(&rt, "memory");
    add(&rt, &mut edges, 0, 1, 131, 168);
    add(&rt, &mut edges, 1, 2, 300, 310);
    check_drop(&rt, &mut edges, 7);
}

#[test]
fn more_pairs_cost_more_steps(rt: HostRuntime) {
    let mut edges = Edges::make(rt.alloc(), 4).expect(&rt, "memory");
    add(&rt, &mut edges, 0, 1, 10, 20);
    add(&rt, &mut edges, 0, 2, 10, 20);
    add(&rt, &mut edges, 0, 3, 10, 20);
    add(&rt, &mut edges, 1, 2, 5, 6);
    check_drop(&rt, &mut edges, 19);
}
