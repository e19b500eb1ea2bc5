//! The changes of the picture, as lines and entries have them.
ghost use Rattle.std.specs.Prelude.{IfOk};
ghost use Rattle.mt_read.specs.Private.FieldReading.{ReadsRow};
ghost use Rattle.mt_read.specs.Table.{change_layout};

use crate::clearance::{clear_line, tentative_line};
use crate::feed::{drop_line, external_line, renew_line, report_line, tick_line};
use crate::marks::{commit_line, withdraw_line};
use crate::plan::plan_line;
use crate::reading::FieldReading;
use crate::word::Change;
use mt_base::Command;
use mt_memory::Memory;
use std::alloc::Global;

/// The change that a line's fields are.
pub(crate) fn change_of(
    alloc: Global,
    reading: &mut FieldReading,
    change: Change,
) -> Result<Command, Memory>
    ensures { IfOk result (ReadsRow reading.old reading.new (change_layout change)) }
{
    match change {
        Change::Plan => plan_line(alloc, reading),
        Change::External => Ok(external_line(reading)),
        Change::Drop => Ok(drop_line(reading)),
        Change::Report => Ok(report_line(reading)),
        Change::Tick => Ok(tick_line(reading)),
        Change::Renew => Ok(renew_line(reading)),
        Change::Clear => Ok(clear_line(reading)),
        Change::Tentative => Ok(tentative_line(reading)),
        Change::Withdraw => Ok(withdraw_line(reading)),
        Change::Commit => Ok(commit_line(reading)),
    }
}
