//! What the feed asks for, but for plans: `external`, `drop`, `report`, `tick` and `renew`.
ghost use Rattle.std.specs.Prelude.{⊤, []};
ghost use Rattle.mt_read.specs.Private.FieldReading.{Reads, ReadsRow};
ghost use Rattle.mt_read.specs.Private.Row.{row_bounds, row_fields};
ghost use Rattle.mt_read.specs.Table.{change_layout, ends, row_in};
ghost use Rattle.mt_read.specs.declared.word.Change.TheVariants as change;

use crate::key::Key;
use crate::reading::FieldReading;
use mt_base::{Command, Report, Row, Straight};

/// `drop`.
pub(crate) fn drop_line(reading: &mut FieldReading) -> Command
    ensures { ReadsRow reading.old reading.new (change_layout change.Drop) result }
{
    let call = reading.callsign(Key::Call);
    Command::Drop { call }
}

/// `report`.
pub(crate) fn report_line(reading: &mut FieldReading) -> Command
    ensures { ReadsRow reading.old reading.new (change_layout change.Report) result }
{
    let call = reading.callsign(Key::Call);
    let at = reading.count(Key::At, 0, 10_000_000);
    let x = reading.whole(Key::X, -3_686_400, 3_686_400);
    let y = reading.whole(Key::Y, -3_686_400, 3_686_400);
    let z = reading.whole(Key::Z, 0, 3_600_000);
    let report = Report { at, x, y, z };
    Command::Report { call, report }
}

/// `tick`.
pub(crate) fn tick_line(reading: &mut FieldReading) -> Command
    ensures { ReadsRow reading.old reading.new (change_layout change.Tick) result }
{
    let now = reading.count(Key::Now, 0, 10_000_000);
    Command::Tick { now }
}

/// `renew`.
pub(crate) fn renew_line(reading: &mut FieldReading) -> Command
    ensures { ReadsRow reading.old reading.new (change_layout change.Renew) result }
{
    let call = reading.callsign(Key::Call);
    Command::Renew { call }
}

// Each value of a row is within its bounds after so many seconds too.
fn row_at_end(reading: &mut FieldReading, row: &Row, seconds: u32)
    ensures { Reads {A = ⊤} reading.old reading.new [] (λ _. ends row.now seconds) (λ _. tt {0}) (tt {0}) }
{
    reading.ends(Key::X, &row.x, &row.vx, seconds, -3_686_400, 3_686_400);
    reading.ends(Key::Y, &row.y, &row.vy, seconds, -3_686_400, 3_686_400);
    reading.ends(Key::Z, &row.z, &row.vz, seconds, 0, 3_600_000);
    reading.ends(Key::R, &row.r, &row.gr, seconds, 0, 72_000);
    reading.ends(Key::W, &row.w, &row.gw, seconds, 0, 600_000);
}

// The values and gains of the first second.
fn first_row(reading: &mut FieldReading) -> Row
    ensures { Reads reading.old reading.new row_fields row_bounds row_in result }
{
    let x = reading.whole(Key::X, -3_686_400, 3_686_400);
    let y = reading.whole(Key::Y, -3_686_400, 3_686_400);
    let z = reading.whole(Key::Z, 0, 3_600_000);
    let vx = reading.whole_or_zero(Key::Vx, -1_000, 1_000);
    let vy = reading.whole_or_zero(Key::Vy, -1_000, 1_000);
    let vz = reading.whole_or_zero(Key::Vz, -10_000, 10_000);
    let r = reading.whole_or_zero(Key::R, 0, 72_000);
    let gr = reading.whole_or_zero(Key::Gr, 0, 1_000);
    let w = reading.whole_or_zero(Key::W, 0, 600_000);
    let gw = reading.whole_or_zero(Key::Gw, 0, 10_000);
    Row {
        x,
        y,
        z,
        r,
        w,
        vx,
        vy,
        vz,
        gr,
        gw,
        leg: 0,
    }
}

/// `external`.
pub(crate) fn external_line(reading: &mut FieldReading) -> Command
    ensures { ReadsRow reading.old reading.new (change_layout change.External) result }
{
    let call = reading.callsign(Key::Call);
    let from = reading.count(Key::From, 0, 10_000_000);
    let to = reading.count(Key::To, from + 1, from + 14_400);
    let first = first_row(reading);
    let rvsm = reading.approval();
    row_at_end(reading, &first, to.saturating_sub(from));
    let straight = Straight {
        from,
        to,
        first,
        rvsm,
    };
    Command::External { call, straight }
}
