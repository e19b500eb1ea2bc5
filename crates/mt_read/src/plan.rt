//! A planned flight: `plan`.
ghost use Rattle.std.specs.Prelude.{IfOk};
ghost use Rattle.mt_read.specs.Private.FieldReading.{ReadsRow};
ghost use Rattle.mt_read.specs.Table.{change_layout};
ghost use Rattle.mt_read.specs.declared.word.Change.TheVariants as change;

use crate::key::Key;
use crate::reading::FieldReading;
use mt_base::Command;
use mt_memory::Memory;
use std::alloc::Global;

/// `plan`.
pub(crate) fn plan_line(alloc: Global, reading: &mut FieldReading) -> Result<Command, Memory>
    ensures { IfOk result (ReadsRow reading.old reading.new (change_layout change.Plan)) }
{
    let call = reading.callsign(Key::Call);
    let kind = reading.type_name(Key::Kind);
    let route = reading.route(alloc, Key::Route)?;
    let at = reading.count(Key::At, 0, 10_000_000);
    let from = reading.count_or_none(Key::From, 600);
    let level = reading.count(Key::Level, 0, 600);
    let rvsm = reading.approval();
    Ok(Command::Plan {
        call,
        kind,
        route,
        at,
        from: from.unwrap_or(level),
        level,
        rvsm,
    })
}
