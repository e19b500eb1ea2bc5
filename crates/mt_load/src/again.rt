//! A picture rebuilt of its printed history.
ghost use Rattle.std.specs.Prelude.{◌≡◌, All, IfOk};
ghost use Rattle.std.specs.Arc.{arc_value};
ghost use Rattle.mt_base.specs.History.{IsReplayable};
ghost use Rattle.mt_history.specs.Printed.{AreReadAsEntries, printed};
ghost use Rattle.mt_history.specs.Rebuilt.{IsReadyToDecide};
ghost use Rattle.mt_io.specs.Lines.{lines_of};
ghost use Rattle.mt_load.specs.Summary.{IsCountedAgain};

use mt_base::Entries;
use mt_history::{BadHistory, Wrong, print, read_all, rebuild};
use mt_memory::Memory;
use mt_picture::Picture;
use mt_tables::Tables;
use std::alloc::Global;
use std::sync::Arc;
use std::thread::Threads;

// The entries as which the history of a picture, printed, is read. Where the history can be replayed, so can they.
fn read_back(alloc: Global, picture: &Picture) -> Result<Entries, Memory>
    ensures read { IfOk result (AreReadAsEntries (lines_of (printed picture.now.history))) }
    ensures replayable { IfOk result (λ entries. IsReplayable picture.now.setup picture.now.history → IsReplayable picture.now.setup entries) }
    ensures ready { IfOk result (All IsReadyToDecide) }
{
    let text = print(alloc, picture, 0, picture.version())?;
    match read_all(alloc, &text) {
        Ok(entries) => Ok(entries),
        Err(BadHistory::Line(_)) => unreachable!(),
        Err(BadHistory::Memory) => Err(Memory),
    }
}

/// How many conflicts are published of the picture that is rebuilt of a picture's history, printed and read back. It asks that the history can
/// be replayed.
pub(crate) fn again<R: Threads + Sync>(
    rt: &R,
    alloc: Global,
    picture: &Picture,
    tables: Arc<Tables>,
) -> Result<u64, Memory>
    requires tables { arc_value tables ≡ picture.now.setup.tables }
    requires replayable { IsReplayable picture.now.setup picture.now.history }
    ensures { IfOk result (IsCountedAgain picture.now.setup picture.now.history) }
{
    let entries = read_back(alloc, picture)?;
    match rebuild(rt, alloc, picture.rules(), tables, &entries) {
        Ok(rebuilt) => Ok(rebuilt.published().len() as u64),
        Err(Wrong::Illegal { .. }) => unreachable!(),
        Err(Wrong::Late { .. }) => unreachable!(),
        Err(Wrong::Memory) => Err(Memory),
    }
}
