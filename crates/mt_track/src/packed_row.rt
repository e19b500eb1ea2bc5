//! Rows in 32 bits a number, so that a segment has 52 bytes and not 96: a processor's cache holds more of them where the trajectories of many flights
//! are compared.
ghost use Rattle.std.specs.Prelude.{◌≡◌, ℕ};
ghost use Rattle.mt_base.specs.Bounds.{IsBoundedOver};
ghost use Rattle.mt_track.specs.Rows.{row_after};

use crate::segment::later;
use crate::units::narrow;
use mt_base::Row;
use std::marker::Model;

/// A row, each of its numbers in 32 bits; seen as that row.
#[derive(Clone, Copy, PartialEq, Eq)]
pub struct PackedRow {
    x: i32,
    y: i32,
    z: i32,
    r: i32,
    w: i32,
    vx: i32,
    vy: i32,
    vz: i32,
    gr: i32,
    gw: i32,
    leg: u32,
}

impl Model for PackedRow {
    ghost use Rattle.mt_base.specs.declared.row.Row.{Row};

    ghost Value = { Row };

    ghost view = { λ s. record { x = s.x; y = s.y; z = s.z; r = s.r; w = s.w; vx = s.vx; vy = s.vy; vz = s.vz; gr = s.gr; gw = s.gw; leg = s.leg } };

    ghost inverse = { λ s. record { x = s.x; y = s.y; z = s.z; r = s.r; w = s.w; vx = s.vx; vy = s.vy; vz = s.vz; gr = s.gr; gw = s.gw; leg = s.leg } };
}

impl PackedRow {
    /// That of a row, which keeps within bounds.
    pub fn of(row: &Row) -> PackedRow
        requires { (seconds : ℕ) × IsBoundedOver row.now seconds }
        ensures { result ≡ row.now }
    {
        PackedRow {
            x: narrow(row.x),
            y: narrow(row.y),
            z: narrow(row.z),
            r: narrow(row.r),
            w: narrow(row.w),
            vx: narrow(row.vx),
            vy: narrow(row.vy),
            vz: narrow(row.vz),
            gr: narrow(row.gr),
            gw: narrow(row.gw),
            leg: row.leg,
        }
    }

    /// The row.
    pub fn row(&self) -> Row
        ensures { result ≡ self.now }
    {
        Row {
            x: i64::from(self.x),
            y: i64::from(self.y),
            z: i64::from(self.z),
            r: i64::from(self.r),
            w: i64::from(self.w),
            vx: i64::from(self.vx),
            vy: i64::from(self.vy),
            vz: i64::from(self.vz),
            gr: i64::from(self.gr),
            gw: i64::from(self.gw),
            leg: self.leg,
        }
    }

    /// The row that many seconds later, with the same gains.
    pub fn later(&self, seconds: u32) -> Row
        requires { IsBoundedOver self.now seconds }
        ensures { result ≡ row_after self.now seconds }
    {
        later(&self.row(), seconds)
    }
}
