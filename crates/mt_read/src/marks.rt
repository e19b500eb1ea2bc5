//! What ends a tentative clearance: `withdraw` and `commit`.
ghost use Rattle.mt_read.specs.Private.FieldReading.{ReadsRow};
ghost use Rattle.mt_read.specs.Table.{change_layout};
ghost use Rattle.mt_read.specs.declared.word.Change.TheVariants as change;

use crate::key::Key;
use crate::reading::FieldReading;
use mt_base::Command;

/// `withdraw`.
pub(crate) fn withdraw_line(reading: &mut FieldReading) -> Command
    ensures { ReadsRow reading.old reading.new (change_layout change.Withdraw) result }
{
    let call = reading.callsign(Key::Call);
    let force = reading.force();
    Command::Withdraw { call, force }
}

/// `commit`.
pub(crate) fn commit_line(reading: &mut FieldReading) -> Command
    ensures { ReadsRow reading.old reading.new (change_layout change.Commit) result }
{
    let call = reading.callsign(Key::Call);
    Command::Commit { call }
}
