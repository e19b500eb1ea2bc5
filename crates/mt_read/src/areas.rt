//! The line `area`, on a restricted area, before the picture begins.
ghost use Rattle.std.specs.Prelude.{IfOk};
ghost use Rattle.mt_read.specs.Private.FieldReading.{ReadsRow};
ghost use Rattle.mt_read.specs.Table.{layout_of};
ghost use Rattle.mt_read.specs.declared.word.Word.TheVariants as word;

use crate::key::Key;
use crate::reading::FieldReading;
use crate::request::Request;
use mt_base::{Area, HORIZON};
use mt_memory::Memory;
use std::alloc::Global;

/// `area`.
pub(crate) fn area_line(alloc: Global, reading: &mut FieldReading) -> Result<Request, Memory>
    ensures { IfOk result (ReadsRow reading.old reading.new (layout_of word.Area)) }
{
    let name = reading.fix_name(Key::Name);
    let corners = reading.corners(alloc, Key::Corners)?;
    let bottom = reading.count(Key::Bottom, 0, 600);
    let top = reading.count(Key::Top, 0, 600);
    let from = reading.count_or_zero(Key::From, 10_000_000);
    let to = reading.count_or_none(Key::To, HORIZON);
    let area = Area {
        name,
        corners,
        bottom,
        top,
        from,
        to: to.unwrap_or(HORIZON),
    };
    Ok(Request::Area(area))
}
