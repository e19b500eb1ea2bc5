//! The cells of trajectories, and which are near each other.
ghost use Rattle.std.specs.Prelude.{true};
ghost use Rattle.mt_base.specs.Bounds.{IsBoundedStretch};
ghost use Rattle.mt_grid.specs.Lists.{AreInGrid};

use mt_base::{Row, Rules, Second, Straight};
use mt_cover::{Cover, Stay, cover};
use mt_grid::Grid;
use mt_track::Strand;
use std::process::Abort;

/// 9,000 units east of the edge between the columns 31 and 32: half of the horizontal minimum.
const AT_EDGE: Row = Row {
    x: 9_000,
    y: 50_000,
    z: 2_400_000,
    r: 0,
    w: 0,
    vx: 0,
    vy: 0,
    vz: 0,
    gr: 0,
    gw: 0,
    leg: 0,
};

const OVER_EDGE: Row = Row {
    x: 8_999,
    y: 50_000,
    z: 2_400_000,
    r: 0,
    w: 0,
    vx: 0,
    vy: 0,
    vz: 0,
    gr: 0,
    gw: 0,
    leg: 0,
};

/// West of that edge: at the minimum from `AT_EDGE`, one unit less and one more.
const AT_MINIMUM: Row = Row {
    x: -9_000,
    y: 50_000,
    z: 2_400_000,
    r: 0,
    w: 0,
    vx: 0,
    vy: 0,
    vz: 0,
    gr: 0,
    gw: 0,
    leg: 0,
};

const BELOW_MINIMUM: Row = Row {
    x: -8_999,
    y: 50_000,
    z: 2_400_000,
    r: 0,
    w: 0,
    vx: 0,
    vy: 0,
    vz: 0,
    gr: 0,
    gw: 0,
    leg: 0,
};

const ABOVE_MINIMUM: Row = Row {
    x: -9_001,
    y: 50_000,
    z: 2_400_000,
    r: 0,
    w: 0,
    vx: 0,
    vy: 0,
    vz: 0,
    gr: 0,
    gw: 0,
    leg: 0,
};

/// Comes to the edge with its margin at the end of second 255, and one unit short of it.
const REACHING: Row = Row {
    x: -9_256,
    y: 50_000,
    z: 2_400_000,
    r: 0,
    w: 0,
    vx: 1,
    vy: 0,
    vz: 0,
    gr: 0,
    gw: 0,
    leg: 0,
};

const SHORT: Row = Row {
    x: -9_257,
    y: 50_000,
    z: 2_400_000,
    r: 0,
    w: 0,
    vx: 1,
    vy: 0,
    vz: 0,
    gr: 0,
    gw: 0,
    leg: 0,
};

/// Its margin grows to the edge by the end of second 255, and one unit past it.
const GROWN: Row = Row {
    x: 12_000,
    y: 50_000,
    z: 2_400_000,
    r: 440,
    w: 0,
    vx: 0,
    vy: 0,
    vz: 0,
    gr: 10,
    gw: 0,
    leg: 0,
};

const OUTGROWN: Row = Row {
    x: 12_000,
    y: 50_000,
    z: 2_400_000,
    r: 441,
    w: 0,
    vx: 0,
    vy: 0,
    vz: 0,
    gr: 10,
    gw: 0,
    leg: 0,
};

/// Flies along the edge between the lines 31 and 32.
const ALONG: Row = Row {
    x: -300_000,
    y: 0,
    z: 2_400_000,
    r: 0,
    w: 0,
    vx: 480,
    vy: 0,
    vz: 0,
    gr: 0,
    gw: 0,
    leg: 0,
};

/// In a corner of the plane, which it leaves by its margin.
const CORNER: Row = Row {
    x: 3_686_400,
    y: -3_686_400,
    z: 2_400_000,
    r: 1_000,
    w: 0,
    vx: 0,
    vy: 0,
    vz: 0,
    gr: 0,
    gw: 0,
    leg: 0,
};

const FALLING: Row = Row {
    x: 20_000,
    y: 50_000,
    z: 2_400_000,
    r: 0,
    w: 0,
    vx: 100,
    vy: -300,
    vz: 0,
    gr: 0,
    gw: 0,
    leg: 0,
};

/// The cover of the stretch that flies from a row.
fn covered(rt: &(impl AllocGlobal + Abort), from: Second, to: Second, first: Row) -> Cover
    requires { IsBoundedStretch (record { from = from; to = to; first = first; rvsm = true }) }
    ensures { AreInGrid result }
{
    let stretch = Straight {
        from,
        to,
        first,
        rvsm: true,
    };
    let strand = Strand::straight(rt.alloc(), &stretch).expect(rt, "memory");
    cover(rt.alloc(), &strand, &Rules::usual()).expect(rt, "memory")
}

/// A stay has that cell, first second and the one after its last.
fn check_stay(rt: &(impl AllocGlobal + Abort), stay: &Stay, wanted: &str) {
    let found = format!(in rt.alloc(); "{} {} {}", stay.cell, stay.from, stay.to);
    assert!(rt; found.expect(rt, "memory").as_str() == wanted);
}

/// The stays of that stretch are those wanted, each with its cell, its first second and the one after its last.
fn check(rt: &(impl AllocGlobal + Abort), from: Second, to: Second, first: Row, wanted: &str)
    requires { IsBoundedStretch (record { from = from; to = to; first = first; rvsm = true }) }
{
    let cover = covered(rt, from, to, first);
    let mut stays = cover.stays().iter();
    for wanted in wanted.split(", ") {
        check_stay(rt, stays.next().expect(rt, "a stay"), wanted);
    }
    assert!(rt; stays.next().is_none());
    drop(cover);
}

#[test]
fn covers_are_those_worked_out_row_by_row(rt: HostRuntime) {
    check(&rt, 0, 300, AT_EDGE, "2080 0 256, 2080 256 300");
    check(&rt, 0, 256, OVER_EDGE, "2079 0 256, 2080 0 256");
    check(&rt, 0, 256, REACHING, "2079 0 256, 2080 0 256");
    check(&rt, 0, 256, SHORT, "2079 0 256");
    check(&rt, 0, 256, GROWN, "2080 0 256");
    check(&rt, 0, 256, OUTGROWN, "2079 0 256, 2080 0 256");
    check(&rt, 0, 300, CORNER, "63 0 256, 63 256 300");
    let falling = "2016 300 556, 2080 300 556, 2016 556 700";
    check(&rt, 300, 700, FALLING, falling);
    let along = "2013 100 356, 2014 100 356, 2077 100 356, 2078 100 356";
    check(&rt, 100, 356, ALONG, along);
}

/// Whether the item 7 is near a cover in a grid that has no other.
fn is_found(rt: &impl Abort, grid: &Grid, cover: &Cover) -> bool
    requires { AreInGrid cover.now }
{
    let near = grid.near(cover).expect(rt, "memory");
    assert!(rt; near.is_empty() || near.as_slice() == [7].as_slice());
    !near.is_empty()
}

/// The grid with the item 7 alone; before it is put, nothing is near the other cover.
fn with_item(rt: &(impl AllocGlobal + Abort), cover: &Cover, other: &Cover) -> Grid
    requires cover { AreInGrid cover.now }
    requires other { AreInGrid other.now }
{
    let empty = Grid::make(rt.alloc()).expect(rt, "memory");
    assert!(rt; !is_found(rt, &empty, other));
    let grid = empty.put(7, cover).expect(rt, "memory");
    drop(empty);
    grid
}

/// Once the item 7 is taken out of the grid, nothing is near the other cover.
fn check_taken(rt: &impl Abort, grid: &Grid, cover: &Cover, other: &Cover)
    requires cover { AreInGrid cover.now }
    requires other { AreInGrid other.now }
{
    let gone = grid.take(7, cover).expect(rt, "memory");
    assert!(rt; !is_found(rt, &gone, other));
    drop(gone);
}

/// Whether the second stretch is near the first, once it is put into an empty grid; before that and after it is taken it isn't.
fn is_near(rt: &(impl AllocGlobal + Abort), one: Row, other: Row) -> bool
    requires one { IsBoundedStretch (record { from = 0; to = 300; first = one; rvsm = true }) }
    requires other { IsBoundedStretch (record { from = 0; to = 300; first = other; rvsm = true }) }
{
    let one = covered(rt, 0, 300, one);
    let other = covered(rt, 0, 300, other);
    let grid = with_item(rt, &other, &one);
    check_taken(rt, &grid, &other, &one);
    let shared = grid.share().expect(rt, "memory");
    drop(grid);
    let is_near = is_found(rt, &shared, &one);
    drop(shared);
    drop(one);
    drop(other);
    is_near
}

#[test]
fn strands_on_both_sides_of_an_edge_are_near_up_to_the_minimum(rt: HostRuntime) {
    assert!(rt; is_near(&rt, BELOW_MINIMUM, AT_EDGE));
    assert!(rt; is_near(&rt, AT_MINIMUM, AT_EDGE));
    assert!(rt; !is_near(&rt, ABOVE_MINIMUM, AT_EDGE));
    assert!(rt; is_near(&rt, ABOVE_MINIMUM, OVER_EDGE));
}
