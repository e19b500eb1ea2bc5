//! Tables of cases whose answers come from a program with exact fractions.

ghost use Rattle.std.specs.Prelude.{IsTrue};
ghost use Rattle.mt_frac.specs.FractionOrder.{IsBefore};
ghost use Rattle.mt_frac.specs.Signs.{IsBoundedLine, IsBoundedQuad};

use crate::cases::{Check, Values, assert_case, check_each, number, parsed, word};
use mt_frac::{Frac, Linear, Quad};
use std::cmp::Ordering;
use std::process::Abort;

// The coefficients a, b and c, the ends of the interval, and whether the quadratic is below 0 inside.
const QUADRATICS: &str = "\
; double root at the lower end
1 0 0 0/1 1/1 never
; at the upper end
1 -2 1 0/1 1/1 never
; inside
4 -4 1 0/1 1/1 never
; before the lower end
1 2 1 0/1 1/1 never
; after the upper end
1 -4 4 0/1 1/1 never
; the same, open downwards
-1 0 0 0/1 1/1 below
-1 2 -1 0/1 1/1 below
-4 4 -1 0/1 1/1 below
-1 -2 -1 0/1 1/1 below
-1 4 -4 0/1 1/1 below
; roots at both ends
1 -1 0 0/1 1/1 below
-1 1 0 0/1 1/1 never
15 -11 2 1/3 2/5 below
-15 11 -2 2/6 4/10 never
; one root at an end, one inside
2 -1 0 0/1 1/1 below
-2 1 0 0/1 1/1 below
2 -3 1 0/1 1/1 below
; one root at an end, one outside
1 1 0 0/1 1/1 never
1 -2 0 0/1 1/1 below
-1 -1 0 0/1 1/1 below
-1 2 0 0/1 1/1 never
; both roots inside
100 -100 24 0/1 1/1 below
-100 100 -24 0/1 1/1 below
; both before, both after, one on each side
1 3 2 0/1 1/1 never
1 -5 6 0/1 1/1 never
1 0 -9 -1/2 3/2 below
-1 0 9 -1/2 3/2 never
; no root
1 0 1 -1/1 1/1 never
-1 0 -1 -1/1 1/1 below
; the least discriminant
1 1 0 -1/1 0/1 below
1 1 0 -3/2 -1/2 below
; a = 0, rising
0 1 0 0/1 1/1 never
0 1 -1 0/1 1/1 below
0 2 -1 0/1 1/1 below
0 1 1 0/1 1/1 never
; a = 0, falling
0 -1 0 0/1 1/1 below
0 -1 1 0/1 1/1 never
0 -2 1 0/1 1/1 below
; a = b = 0
0 0 0 0/1 1/1 never
0 0 1 0/1 1/1 never
0 0 -1 0/1 1/1 below
; at the bounds
67108863 1099511627775 1125899906842623 -4294967295/1 4294967295/1 below
67108863 -1099511627775 1125899906842623 0/1 4294967295/262143 below
67108863 -1099511627775 1125899906842623 4294967295/262143 4294967295/1 never
-67108863 -1099511627775 -1125899906842623 4294967294/262143 4294967295/262143 below
-67108863 -1099511627775 1125899906842623 -4294967295/1 4294967295/1 below
67108863 -1099511627775 1125899906842623 1000/1 16000/1 below
67108863 0 -1125899906842623 4294967295/262143 4294967295/262142 never
0 1099511627775 -1125899906842623 1023/1 1024/1 below
";

// The coefficients b and c, the ends of the interval, and the ends of the part below 0.
const LINES: &str = "\
; above
0 1 0/1 1/1 never
0 0 0/1 1/1 never
0 -1 0/1 1/1 0/1 1/1
; rising
1 0 0/1 1/1 never
1 -1 0/1 1/1 0/1 1/1
2 -1 0/1 1/1 0/1 1/2
1 1 0/1 1/1 never
1 -2 0/1 1/1 0/1 1/1
; falling
-1 0 0/1 1/1 0/1 1/1
-1 1 0/1 1/1 never
-2 1 0/1 1/1 1/2 1/1
-1 -1 0/1 1/1 0/1 1/1
-1 2 0/1 1/1 never
-7 3 1/3 1/2 3/7 1/2
7 -3 2/6 2/4 1/3 3/7
-6 -4 -1/1 0/1 -2/3 0/1
; at the bounds
262143 -4294967295 0/1 4294967295/1 0/1 1431655765/87381
-262143 4294967295 0/1 4294967295/1 1431655765/87381 4294967295/1
262143 4294967295 -4294967295/1 4294967295/262143 -4294967295/1 -1431655765/87381
-262143 -4294967295 -4294967295/1 -4294967295/262142 never
";

// The coefficients a, b and c, a fraction, and how the quadratic there compares with 0.
const SIGNS: &str = "\
1 0 0 0/1 equal
1 -2 1 3/3 equal
1 -2 1 9/10 greater
2 -3 1 3/4 less
-2 3 -1 3/4 greater
0 3 -1 1/3 equal
0 0 -5 7/2 less
67108863 1099511627775 1125899906842623 -4294967295/262143 greater
-67108863 -1099511627775 -1125899906842623 4294967295/262143 less
67108863 -1099511627775 1125899906842623 4294967295/1 greater
15 -11 2 -4/10 greater
";

// Two fractions, and how the first compares with the second.
const ORDERS: &str = "\
1/2 2/4 equal
1/3 1/2 less
3/2 4/3 greater
-1/3 -1/2 greater
-1/2 1/3 less
0/1 0/7 equal
4294967295/262143 4294967295/262142 less
-4294967295/262143 -4294967295/262142 greater
4294967295/1 4294967294/1 greater
2/3 3/5 greater
";

fn fraction(rt: &impl Abort, word: &str) -> Frac {
    let (num, den) = word.split_once('/').expect(rt, "a fraction");
    let (num, den) = (parsed(rt, num), parsed(rt, den));
    assert!(rt; num > -(1 << 32));
    assert!(rt; num < 1 << 32);
    assert!(rt; den >= 1);
    assert!(rt; den < 1 << 18);
    Frac { num, den }
}

fn quadratic(rt: &impl Abort, values: &mut Values<'_>) -> Quad
    ensures { IsBoundedQuad result }
{
    let a = number(rt, values);
    let b = number(rt, values);
    let c = number(rt, values);
    let quad = Quad { a, b, c };
    assert!(rt; is_bounded_quad(quad));
    quad
}

fn line(rt: &impl Abort, values: &mut Values<'_>) -> Linear
    ensures { IsBoundedLine result }
{
    let b = number(rt, values);
    let c = number(rt, values);
    let line = Linear { b, c };
    assert!(rt; is_bounded_line(line));
    line
}

/// Two fractions, of which the first is less.
fn interval(rt: &impl Abort, values: &mut Values<'_>) -> (Frac, Frac)
    ensures { IsBefore result.0 result.1 }
{
    let lo = fraction(rt, word(rt, values));
    let hi = fraction(rt, word(rt, values));
    assert!(rt; is_before(lo, hi));
    (lo, hi)
}

fn ordering(rt: &impl Abort, word: &str) -> Ordering {
    match word {
        "less" => Ordering::Less,
        "equal" => Ordering::Equal,
        "greater" => Ordering::Greater,
        _ => panic!(rt; "no ordering"),
    }
}

fn is_bounded_quad(quad: Quad) -> bool
    ensures { IsTrue result → IsBoundedQuad quad }
{
    quad.a.unsigned_abs() < 1 << 26
        && quad.b.unsigned_abs() < 1 << 40
        && quad.c.unsigned_abs() < 1 << 50
}

fn is_bounded_line(line: Linear) -> bool
    ensures { IsTrue result → IsBoundedLine line }
{
    line.b.unsigned_abs() < 1 << 18 && line.c.unsigned_abs() < 1 << 32
}

fn is_before(lo: Frac, hi: Frac) -> bool
    ensures { IsTrue result → IsBefore lo hi }
{
    matches!(lo.compare(hi), Ordering::Less)
}

/// Whether a quadratic is below 0.
struct Quadratics;

impl Check for Quadratics {
    fn check(rt: &(impl Abort + AllocGlobal), case: &str) {
        let mut values = case.split_whitespace();
        let quad = quadratic(rt, &mut values);
        let (lo, hi) = interval(rt, &mut values);
        let wanted = word(rt, &mut values) == "below";
        assert_case(rt, quad.below_zero_in(lo, hi) == wanted, case);
    }
}

#[test]
fn quadratics_below_zero(rt: HostRuntime) {
    check_each::<Quadratics>(&rt, QUADRATICS);
}

fn is_equal(left: Frac, right: Frac) -> bool {
    matches!(left.compare(right), Ordering::Equal)
}

/// The part of a line is that from one fraction to the other.
fn is_part(part: (Frac, Frac), begin: Frac, end: Frac) -> bool {
    is_equal(part.0, begin) && is_equal(part.1, end)
}

/// The part of a line has these ends.
fn check_ends(rt: &impl Abort, part: (Frac, Frac), begin: &str, end: &str) {
    assert!(rt; is_part(part, fraction(rt, begin), fraction(rt, end)));
}

/// The part of a line is as the next values say: `never`, or its ends.
fn check_part(rt: &impl Abort, part: Option<(Frac, Frac)>, values: &mut Values<'_>) {
    let begin = word(rt, values);
    match part {
        None => assert!(rt; begin == "never"),
        Some(part) => check_ends(rt, part, begin, word(rt, values)),
    }
}

/// The part of a line below 0.
struct Lines;

impl Check for Lines {
    fn check(rt: &(impl Abort + AllocGlobal), case: &str) {
        let mut values = case.split_whitespace();
        let line = line(rt, &mut values);
        let (lo, hi) = interval(rt, &mut values);
        check_part(rt, line.below_in(lo, hi), &mut values);
    }
}

#[test]
fn parts_of_lines(rt: HostRuntime) {
    check_each::<Lines>(&rt, LINES);
}

/// The sign of a quadratic.
struct Signs;

impl Check for Signs {
    fn check(rt: &(impl Abort + AllocGlobal), case: &str) {
        let mut values = case.split_whitespace();
        let quad = quadratic(rt, &mut values);
        let at = fraction(rt, word(rt, &mut values));
        let wanted = ordering(rt, word(rt, &mut values));
        assert_case(rt, quad.sign_at(at) == wanted, case);
    }
}

#[test]
fn signs_of_quadratics(rt: HostRuntime) {
    check_each::<Signs>(&rt, SIGNS);
}

/// The order of two fractions.
struct Orders;

impl Check for Orders {
    fn check(rt: &(impl Abort + AllocGlobal), case: &str) {
        let mut values = case.split_whitespace();
        let left = fraction(rt, word(rt, &mut values));
        let right = fraction(rt, word(rt, &mut values));
        let wanted = ordering(rt, word(rt, &mut values));
        assert_case(rt, left.compare(right) == wanted, case);
    }
}

#[test]
fn orders_of_fractions(rt: HostRuntime) {
    check_each::<Orders>(&rt, ORDERS);
}
