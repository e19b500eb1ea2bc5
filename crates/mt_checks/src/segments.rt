//! How few segments trajectories have, those that no plan can say too: from heights and margins of their own.
ghost use Rattle.std.specs.Prelude.{pos, IsTrue, All};
ghost use Rattle.mt_base.specs.Bounds.{AreBoundedBands, IsBoundedBand, IsInPlane, IsWithin};
ghost use Rattle.mt_base.specs.Predictor.{base_place};
ghost use Rattle.mt_predict.specs.Manners.{IsFlownPlace};

use crate::cases::{Check, Values, assert_part, check_each, check_end, columns, number};
use mt_base::{Band, Base, Point, Rules, Second};
use mt_predict::fly_route;
use mt_track::Strand;
use std::alloc::Global;
use std::process::Abort;

// From which height to which flight level, the first second, the first horizontal margin, the second after the last, and how many segments that
// takes; the bands of a type, each its top, its speed, and its rates of climb and of descent; and the fixes, each its x and y.
const FLOWN: &str = "\
; one more north in the last three
2100000 350 0 0 4 2 | 410 300 2100 2100 | 0 0, 1000 7
; exactly ten seconds
2100000 350 0 0 10 1 | 410 500 2100 2100 | 0 0, 3000 4000
; north west
2100000 350 0 0 19 3 | 410 411 2100 2100 | 0 0, -7001 3333
; south west
2100000 350 0 0 11 3 | 410 499 2100 2100 | 0 0, -3000 -4000
; south east
2100000 350 0 0 19 3 | 410 411 2100 2100 | 100000 -250000, 107001 -253333
; east
2100000 350 0 0 100 1 | 410 480 2100 2100 | 0 0, 48000 0
; west
2100000 350 0 0 101 2 | 410 480 2100 2100 | 0 0, -48001 0
; south
2100000 350 0 0 16 2 | 410 777 2100 2100 | 5 5, 5 -12340
; no displacement and then east
2100000 350 0 0 2 1 | 410 300 2100 2100 | 0 0, 0 0, 600 0
; no displacement alone
2100000 350 0 0 0 0 | 410 300 2100 2100 | 12 34, 12 34
; one knot
2100000 350 0 0 9 3 | 410 1 2100 2100 | 0 0, 7 5
; a thousand knots
2100000 350 0 0 4 2 | 410 1000 2100 2100 | 0 0, 3600 1
; across the plane
2100000 350 0 0 10427 3 | 410 1000 2100 2100 | -3686400 -3686400, 3686400 3686400
; back across the plane
2100000 350 0 0 11573 3 | 410 901 2100 2100 | 3686400 3686400, -3686400 -3686400
; the latest begin
2100000 350 10000000 0 10000031 3 | 410 300 2100 2100 | 0 0, 9000 50
; a leg of all seconds and one behind it
2100000 350 0 0 14400 2 | 410 1 2100 2100 | 0 0, 14400 0, 14400 10
; a leg that is cut by one second
2100000 350 0 0 14400 2 | 410 1 2100 2100 | 0 0, 14401 0
; the second leg is cut
2100000 350 77 0 14477 6 | 410 1000 2100 2100 | -3686400 0, 3686400 3, -3686400 0
; up by what is left at last
2100000 360 0 0 1000 4 | 410 480 2100 2100 | 0 0, 480000 0
; down
2100000 340 0 0 1000 4 | 410 480 2100 2100 | 0 0, 480000 0
; a rate that divides the height
2100000 360 0 0 1000 3 | 410 480 2000 1500 | 0 0, 480000 0
; a rate that does not
2100000 341 0 0 1000 4 | 410 480 1999 1701 | 0 0, 480000 0
; the same level
2100000 350 0 0 11 3 | 410 480 2100 2100 | 0 0, 4801 1
; through the first top
1794000 301 0 0 1000 4 | 300 480 2000 2000, 410 480 1000 1000 | 0 0, 480000 0
; to the first top
1794000 300 0 0 20 2 | 300 480 2000 2000, 410 480 1000 1000 | 0 0, 9600 0
; from the first top down
1800000 299 0 0 20 2 | 300 480 2000 2000, 410 480 1000 1000 | 0 0, 9600 0
; from above the first top down
1806000 299 0 0 20 3 | 300 480 2000 2000, 410 480 1000 1000 | 0 0, 9600 0
; up at the speed where each leg begins
0 600 0 0 1601 15 | 50 200 3000 1500, 100 250 2800 1800, 180 300 2500 2000, 250 380 2200 2400, 300 420 1900 2600, 350 450 1500 2800, 410 470 1000 3000, 600 440 500 3500 | 0 0, 60000 100, 60000 90000, 480000 90000
; down at the speed where each leg begins
3600000 0 0 0 1236 15 | 50 200 3000 1500, 100 250 2800 1800, 180 300 2500 2000, 250 380 2200 2400, 300 420 1900 2600, 350 450 1500 2800, 410 470 1000 3000, 600 440 500 3500 | 0 0, 60000 100, 60000 90000, 480000 90000
; a climb through two bands and a second leg
1794000 301 0 0 1063 6 | 300 480 2000 2000, 410 480 1000 1000 | 0 0, 480000 0, 480000 30000
; two gains that change once each, and a horizontal margin that ends its growth
2100000 350 0 5 1388 5 | 410 480 2100 2100 | 0 0, -123457 654321
; a climb of one unit
2159999 360 0 0 2 2 | 410 480 2100 2100 | 0 0, 960 0
; above the last top of a band
2454000 412 0 0 50 3 | 410 480 2100 2100 | 0 0, 24000 0
; along the longest route
2100000 350 0 0 1026 178 | 410 480 2100 2100 | \
    0 0, 1611 -4057, 5548 -11475, -1079 -2916, -6995 66, 3101 -7034, 10728 -8999, 2956 -15183, 8165 -10481, \
    1454 -11595, -4574 -6685, -11638 -11629, -13323 -18602, -3413 -14604, -10789 -16360, -18263 -20997, -17774 -16263, -22048 -7546, \
    -27189 -6438, -17831 -9516, -23455 -12360, -20253 -18168, -11305 -25111, -1812 -32158, 9471 -34410, 16737 -25987, 21748 -24694, \
    28004 -18845, 30852 -18023, 29992 -21133, 28990 -27451, 38812 -26613, 47021 -19390, 49276 -13683, 49711 -20285, 44579 -12510, \
    49280 -16105, 51488 -20125, 58510 -15307, 50794 -21764, 60081 -20484, 62226 -18010, 72702 -10735, 82704 -4787, 75957 -10721, \
    75802 -4186, 68931 -11198, 70076 -5596, 70401 -1955, 72771 -10216, 78899 -7569, 75405 -12733, 82582 -19802, 80732 -19384, \
    75970 -20271, 80008 -16461, 87277 -22821, 83728 -17103, 87889 -16999, 83375 -11892, 92404 -11769, 97012 -9013, 100478 -10452, \
    96423 -16733
";

/// Whether a number is so much at least and at most.
fn is_within(low: i64, high: i64, z: &i64) -> bool
    ensures { IsTrue result → IsWithin low high z.now }
{
    low <= *z && *z <= high
}

fn is_up_to(most: &i64, z: &i64) -> bool
    ensures { IsTrue result → IsWithin (pos 0) most.now z.now }
{
    0 <= *z && *z <= *most
}

fn is_in_plane(x: &i64, y: &i64) -> bool
    ensures { IsTrue result → IsInPlane x.now y.now }
{
    is_within(-3_686_400, 3_686_400, x) && is_within(-3_686_400, 3_686_400, y)
}

fn is_band(band: &Band) -> bool
    ensures { IsTrue result → IsBoundedBand band.now }
{
    if band.top < 1 || band.top > 600 {
        return false;
    }
    if !is_within(1, 1_000, &band.speed) || !is_within(1, 10_000, &band.climb) {
        return false;
    }
    is_within(1, 10_000, &band.descent)
}

fn are_bands(bands: &[Band]) -> bool
    ensures { IsTrue result → AreBoundedBands bands.now }
{
    let count = bands.len();
    if count < 1 || count > 8 {
        return false;
    }
    for band in bands {
        if !is_band(band) {
            return false;
        }
    }
    true
}

fn are_in_plane(fixes: &[Point]) -> bool
    ensures { IsTrue result → All (λ p. IsInPlane p.x p.y) fixes.now }
{
    for fix in fixes {
        if !is_in_plane(&fix.x, &fix.y) {
            return false;
        }
    }
    true
}

fn is_held(rules: &Rules, base: &Base) -> bool
    ensures { IsTrue result → IsFlownPlace rules.now (base_place base.now) }
{
    if !is_in_plane(&base.x, &base.y) || !is_within(0, 3_600_000, &base.z) {
        return false;
    }
    is_up_to(&rules.rmax, &base.r) && is_up_to(&rules.wmax, &base.w)
}

/// The trajectory from a base to the fixes, in the usual rules, of an aircraft that isn't approved.
fn fly(
    rt: &impl Abort,
    alloc: Global,
    bands: &[Band],
    level: u32,
    fixes: &[Point],
    base: &Base,
) -> Strand {
    let rules = Rules::usual();
    assert!(rt; are_bands(bands));
    assert!(rt; level <= 600);
    assert!(rt; are_in_plane(fixes));
    assert!(rt; fixes.len() <= 64);
    assert!(rt; (base.next as usize) < fixes.len());
    assert!(rt; base.at <= 10_000_000);
    assert!(rt; is_held(&rules, base));
    fly_route(alloc, &rules, bands, level, fixes, base, false).expect(rt, "memory")
}

fn read_band(rt: &impl Abort, text: &str) -> Band {
    let mut values = text.split_whitespace();
    let top = number(rt, &mut values);
    let speed = number(rt, &mut values);
    let climb = number(rt, &mut values);
    let descent = number(rt, &mut values);
    check_end(rt, &mut values);
    Band {
        top,
        speed,
        climb,
        descent,
    }
}

fn read_bands(rt: &impl Abort, alloc: Global, text: &str) -> Vec<Band> {
    let mut bands = Vec::new(alloc);
    for text in text.split(", ") {
        bands.push(read_band(rt, text)).expect(rt, "memory");
    }
    bands
}

fn read_fix(rt: &impl Abort, text: &str) -> Point {
    let mut values = text.split_whitespace();
    let x = number(rt, &mut values);
    let y = number(rt, &mut values);
    check_end(rt, &mut values);
    Point { x, y }
}

fn read_fixes(rt: &impl Abort, alloc: Global, text: &str) -> Vec<Point> {
    let mut fixes = Vec::new(alloc);
    for text in text.split(", ") {
        fixes.push(read_fix(rt, text)).expect(rt, "memory");
    }
    fixes
}

/// Over the first fix and flying to the second, at a height and with a horizontal margin, from a second on.
fn over_first(rt: &impl Abort, fixes: &[Point], z: i64, r: i64, at: Second) -> Base {
    let first = fixes.first().expect(rt, "a fix");
    Base {
        at,
        x: first.x,
        y: first.y,
        z,
        r,
        w: 0,
        next: 1,
    }
}

/// The trajectory of a case, of which the values up to the first horizontal margin are read here.
fn read_flown(rt: &impl Abort, alloc: Global, values: &mut Values<'_>, text: &str) -> Strand {
    let (bands, fixes) = columns(rt, text);
    let bands = read_bands(rt, alloc, bands);
    let fixes = read_fixes(rt, alloc, fixes);
    let z = number(rt, values);
    let level = number(rt, values);
    let start = number(rt, values);
    let base = over_first(rt, &fixes, z, number(rt, values), start);
    let strand = fly(rt, alloc, &bands, level, &fixes, &base);
    assert!(rt; strand.start() == start);
    strand
}

/// The end and the number of segments of a trajectory.
struct Flown;

impl Check for Flown {
    fn check(rt: &(impl Abort + AllocGlobal), case: &str) {
        let (values, flown) = columns(rt, case);
        let mut values = values.split_whitespace();
        let strand = read_flown(rt, rt.alloc(), &mut values, flown);
        assert_part(rt, strand.end() == number(rt, &mut values), "end", case);
        let segments: usize = number(rt, &mut values);
        assert_part(rt, strand.segments().len() == segments, "segments", case);
        check_end(rt, &mut values);
        drop(strand);
    }
}

#[test]
fn trajectories_have_few_segments(rt: HostRuntime) {
    check_each::<Flown>(&rt, FLOWN);
}
