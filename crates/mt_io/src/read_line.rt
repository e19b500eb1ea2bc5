//! One line from a source, by the reader's parts.
ghost use Rattle.std.specs.Prelude.{◌≡◌, ◌<◌, ◌≤◌, ◌^◌, List, ℕ, None, false, MatchResult};
ghost use Rattle.mt_io.specs.Causes.{Rose};
ghost use Rattle.mt_io.specs.Private.Reading.{IsReaderSound};
ghost use Rattle.mt_io.specs.Private.Gathering.{Advances, CountsLine, Gathers, IsGathered, StopsLine};

use crate::ahead::Ahead;
use crate::gathered::Gathered;
use crate::line::{LineFault, Step};
use crate::source::Source;

/// Reads a line and counts it. At the end of the source nothing is read.
pub fn read_line<S: Source>(
    ahead: &mut Ahead,
    line: &mut Gathered,
    given: &mut u64,
    source: &mut S,
) -> Result<Step, LineFault>
    requires { IsReaderSound ahead.old given.old None }
    ensures advances { Advances ahead.old ahead.new given.old given.new line.old.bytes.items line.new.bytes.items
        (S.left source.old) (S.left source.new) result }
    ensures cause { result ≡ Err LineFault.ReadFault → Rose (S.faults source.old) (S.faults source.new) }
    ensures later { S.faults source.old ≤ S.faults source.new }
    ensures kept { S.reads_to source.old source.new }
{
    if ahead.has_ended() {
        return Ok(Step::Finished);
    }
    match gather(ahead, line, source) {
        Ok(whole) => Ok(give(line, given, whole)),
        Err(fault) => Err(fault),
    }
}

// Gathers the bytes up to the next 0x0A, which goes too, or up to the end of the source.
// Says whether there was a 0x0A.
fn gather<S: Source>(
    ahead: &mut Ahead,
    line: &mut Gathered,
    source: &mut S,
) -> Result<bool, LineFault>
    requires going { ahead.old.ended ≡ false }
    requires limit { ahead.old.taken ≤ 2 ^ 32 }
    ensures gathers { MatchResult result
        (Gathers ahead.old ahead.new (S.left source.old) (S.left source.new) line.new.bytes.items line.new.is_long)
        (StopsLine ahead.old ahead.new (S.left source.old) (S.left source.new)) }
    ensures cause { result ≡ Err LineFault.ReadFault → Rose (S.faults source.old) (S.faults source.new) }
    ensures later { S.faults source.old ≤ S.faults source.new }
    ensures kept { S.reads_to source.old source.new }
{
    line.clear();
    'pieces: loop {
        match ahead.fill(source) {
            Ok(true) => {
                if ahead.move_piece(line) {
                    return Ok(true);
                }
            }
            Ok(false) => return Ok(false),
            Err(fault) => return Err(fault),
        }
    }
}

// Counts the line that was gathered, and says which it is. Without a 0x0A it is one where it has a byte.
fn give(line: &Gathered, given: &mut u64, whole: bool) -> Step
    requires { given.old < 2 ^ 32 }
    ensures { (bytes : List ℕ) → IsGathered line.now.bytes.items line.now.is_long bytes
        → CountsLine whole line.now.bytes.items bytes given.old given.new result }
{
    if !whole && line.is_empty() {
        return Step::Finished;
    }
    *given += 1;
    if line.is_long {
        Step::Skipped
    } else {
        Step::Short
    }
}
