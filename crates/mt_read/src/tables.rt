//! The lines that fill the tables, before the picture begins: `fix` and `type`.
ghost use Rattle.std.specs.Prelude.{IfOk};
ghost use Rattle.mt_read.specs.Private.FieldReading.{ReadsRow};
ghost use Rattle.mt_read.specs.Table.{layout_of};
ghost use Rattle.mt_read.specs.declared.word.Word.TheVariants as word;

use crate::key::Key;
use crate::reading::FieldReading;
use crate::request::Request;
use mt_memory::Memory;
use std::alloc::Global;

/// `fix`.
pub(crate) fn fix_line(reading: &mut FieldReading) -> Request
    ensures { ReadsRow reading.old reading.new (layout_of word.Fix) result }
{
    let name = reading.fix_name(Key::Name);
    let x = reading.whole(Key::X, -3_686_400, 3_686_400);
    let y = reading.whole(Key::Y, -3_686_400, 3_686_400);
    Request::Fix { name, x, y }
}

/// `type`.
pub(crate) fn type_line(alloc: Global, reading: &mut FieldReading) -> Result<Request, Memory>
    ensures { IfOk result (ReadsRow reading.old reading.new (layout_of word.TypeLine)) }
{
    let name = reading.type_name(Key::Name);
    let bands = reading.bands(alloc, Key::Bands)?;
    Ok(Request::TypeLine { name, bands })
}
