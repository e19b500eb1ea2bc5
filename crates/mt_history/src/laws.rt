ghost use Rattle.std.specs.Prelude.{◌≡◌, ℕ, List, All};
ghost use Rattle.mt_base.specs.declared.command.Entry.{Entry};
ghost use Rattle.mt_base.specs.Complete.{IsComplete};
ghost use Rattle.mt_base.specs.History.{IsReplayable};
ghost use Rattle.mt_base.specs.Tables.{Setup};
ghost use Rattle.mt_io.specs.Lines.{lines_of};
ghost use Rattle.mt_history.specs.declared.reading.BadHistory.{BadHistory};
ghost use Rattle.mt_history.specs.declared.reading.BadHistory.TheVariants as bads;
ghost use Rattle.mt_history.specs.declared.rebuilding.Wrong.{Wrong};
ghost use Rattle.mt_history.specs.declared.rebuilding.Wrong.TheVariants as wrongs;
ghost use Rattle.mt_history.specs.Printed.{AreReadAsEntries, IsBad, printed};
ghost use Rattle.mt_history.specs.Rebuilt.{IsWrong};

/// The lines of printed entries are read as these entries, where each of them is complete, as those of every picture are. Lines are read as no
/// two lists of entries; and of bytes whose lines are read, nothing but memory is wanted.
pub fn history_printed_law()
    ensures back { (entries : List Entry) → All IsComplete entries → AreReadAsEntries (lines_of (printed entries)) entries }
    ensures one { (lines : List (List ℕ)) (some others : List Entry) → AreReadAsEntries lines some → AreReadAsEntries lines others → some ≡ others }
    ensures good { (bytes : List ℕ) (entries : List Entry) (bad : BadHistory) → AreReadAsEntries (lines_of bytes) entries → IsBad bytes bad → bad ≡ bads.Memory }
{}

/// Nothing is wrong with entries that can be replayed: where no picture is rebuilt of them, memory is wanted.
pub fn history_rebuilt_law()
    ensures { (setup : Setup) (entries : List Entry) (wrong : Wrong) → IsReplayable setup entries → IsWrong setup entries wrong → wrong ≡ wrongs.Memory }
{}
