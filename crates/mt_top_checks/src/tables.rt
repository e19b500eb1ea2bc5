//! The tables of the tests.
ghost use Rattle.mt_base.specs.Bounds.{IsInPlane};

use crate::names::{fix_name, type_name};
use mt_base::Band;
use mt_tables::Tables;
use std::alloc::Global;
use std::process::Abort;
use std::sync::Arc;

/// A fix is added.
fn add_fix(rt: &impl Abort, tables: &mut Tables, name: &[u8], x: i64, y: i64)
    requires { IsInPlane x y }
{
    assert!(rt; tables.add_fix(fix_name(rt, name), x, y).is_ok());
}

/// The fixes and the type are added.
fn add_all(rt: &impl Abort, tables: &mut Tables) {
    let band = [Band {
        top: 410,
        speed: 480,
        climb: 2_100,
        descent: 2_100,
    }];
    let high = [Band {
        top: 450,
        speed: 480,
        climb: 2_100,
        descent: 2_100,
    }];
    add_fix(rt, tables, b"Q0", 0, 0);
    add_fix(rt, tables, b"Q1", 480_000, 0);
    add_fix(rt, tables, b"Q2", 0, 500_000);
    add_fix(rt, tables, b"Q3", 480_000, 500_000);
    assert!(rt; tables.add_type(type_name(rt, b"JA1"), &band).is_ok());
    assert!(rt; tables.add_type(type_name(rt, b"JA2"), &high).is_ok());
}

/// Two pairs of fixes, one 500,000 units north of the other, those of a pair 480,000 units apart; and two types of one band each. They are to be shared.
pub fn shared_tables(rt: &impl Abort, alloc: Global) -> Arc<Tables> {
    let mut tables = Tables::make(alloc).expect(rt, "memory");
    add_all(rt, &mut tables);
    Arc::new(alloc, tables).ok().expect(rt, "memory")
}
