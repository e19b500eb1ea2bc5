//! Tables filled to their last place.
ghost use Rattle.std.specs.Prelude.{pos, ◌≤◌, ◌≤ℤ◌};
ghost use Rattle.mt_base.specs.Bounds.{AreBoundedBands, IsBoundedBand};

use crate::names::{fix_name, type_name};
use mt_base::{Band, Point};
use mt_tables::{AddNo, Tables};
use std::process::Abort;

/// A band up to that level, at that speed.
fn band(top: u32, speed: i64) -> Band
    requires low { 1 ≤ top }
    requires high { top ≤ 600 }
    requires slow { pos 1 ≤ℤ speed }
    requires fast { speed ≤ℤ pos 1000 }
    ensures { IsBoundedBand result }
{
    Band {
        top,
        speed,
        climb: 2_000,
        descent: 1_500,
    }
}

/// One band, at 110 knots.
fn one_band(top: u32) -> [Band; 1]
    requires low { 1 ≤ top }
    requires high { top ≤ 600 }
    ensures { AreBoundedBands result }
{
    [band(top, 110)]
}

/// The five digits of a number below 100,000.
fn digits(n: u32) -> [u8; 5] {
    let digit = |part: u32| -> u8 { (part % 10) as u8 + b'0' };
    [
        digit(n / 10_000),
        digit(n / 1_000),
        digit(n / 100),
        digit(n / 10),
        digit(n),
    ]
}

/// Adds so many fixes, named by their numbers.
fn add_fixes(rt: &impl Abort, tables: &mut Tables, count: u32)
    requires { count ≤ 20000 }
{
    for n in 0..count {
        let name = fix_name(rt, &digits(n));
        assert!(rt; tables.add_fix(name, i64::from(n), 0) == Ok(()), "fix {n}");
    }
}

#[test]
fn the_tables_take_20_000_fixes(rt: HostRuntime) {
    let mut tables = Tables::make(rt.alloc()).expect(&rt, "memory");
    add_fixes(&rt, &mut tables, 20_000);
    assert!(rt; tables.add_fix(fix_name(&rt, b"AA"), 0, 0) == Err(AddNo::Full));
    assert!(rt; tables.add_fix(fix_name(&rt, b"19999"), 0, 0) == Err(AddNo::Taken));
    assert!(rt; tables.fix(fix_name(&rt, b"12345")) == Some(Point { x: 12_345, y: 0 }));
    assert!(rt; tables.fix(fix_name(&rt, b"20000")).is_none());
    drop(tables);
}

/// The level of the last top of a type; a type that is not in the tables has none.
fn check_ceiling(rt: &impl Abort, tables: &Tables, name: &[u8], wanted: Option<u32>) {
    assert!(rt; tables.ceiling(type_name(rt, name)) == wanted);
}

/// Adds so many types, named by their numbers.
fn add_types(rt: &impl Abort, tables: &mut Tables, count: u32)
    requires { count ≤ 1000 }
{
    let bands = one_band(600);
    for n in 0..count {
        let name = type_name(rt, &digits(n)[1..]);
        assert!(rt; tables.add_type(name, &bands) == Ok(()), "type {n}");
    }
}

#[test]
fn the_tables_take_1_000_types(rt: HostRuntime) {
    let mut tables = Tables::make(rt.alloc()).expect(&rt, "memory");
    add_types(&rt, &mut tables, 1_000);
    let bands = one_band(600);
    assert!(rt; tables.add_type(type_name(&rt, b"AA"), &bands) == Err(AddNo::Full));
    assert!(rt; tables.add_type(type_name(&rt, b"0999"), &bands) == Err(AddNo::Taken));
    check_ceiling(&rt, &tables, b"0500", Some(600));
    check_ceiling(&rt, &tables, b"1000", None);
    drop(tables);
}
