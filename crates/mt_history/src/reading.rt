//! Text read as entries.
ghost use Rattle.std.specs.Prelude.{◌≡◌, ◌<◌, ◌∷◌, All, IfErr, IfOk, Ok, length};
ghost use Rattle.mt_io.specs.Lines.{lines_of};
ghost use Rattle.mt_read.specs.Entry.{entry};
ghost use Rattle.mt_history.specs.declared.reading.BadHistory.TheVariants as bads;
ghost use Rattle.mt_history.specs.Printed.{AreReadAsEntries, IsBad};
ghost use Rattle.mt_history.specs.Private.Printed.{IsBadLine};
ghost use Rattle.mt_history.specs.Rebuilt.{IsReadyToDecide};

use mt_base::{Entries, Entry};
use mt_memory::Memory;
use mt_wire::{LineNo, Scratch, read_entry};
use std::alloc::Global;

/// Why bytes are not read.
#[derive(Clone, Copy, Debug, PartialEq, Eq)]
pub enum BadHistory {
    /// The line at this place, counted from 0, says no entry, and each line before it says one.
    Line(u64),
    /// There wasn't enough memory.
    Memory,
}

impl From<Memory> for BadHistory {
    ghost from_gives = { λ _ e. e ≡ bads.Memory };

    fn from(_: Memory) -> BadHistory {
        BadHistory::Memory
    }
}

// The first line of some bytes, without its 0x0A, and the bytes after it.
fn first_line(bytes: &[u8]) -> (&[u8], &[u8])
    requires { 0 < length bytes.now }
    ensures lines { lines_of bytes.now ≡ result.0.now ∷ lines_of result.1.now }
    ensures shorter { length result.1.now < length bytes.now }
{
    for (end, byte) in bytes.iter().enumerate() {
        if *byte == b'\n' {
            return (&bytes[..end], &bytes[end + 1..]);
        }
    }
    (bytes, &bytes[bytes.len()..])
}

// The entry that the line at a place says.
fn read_line(
    alloc: Global,
    scratch: &mut Scratch,
    line: &[u8],
    place: u64,
) -> Result<Entry, BadHistory>
    ensures read { IfOk result (λ e. entry line.now ≡ Ok e) }
    ensures ready { IfOk result IsReadyToDecide }
    ensures bad { IfErr result (IsBadLine line.now place) }
{
    match read_entry(alloc, scratch, line) {
        Ok(entry) => Ok(entry),
        Err(LineNo::Memory) => Err(BadHistory::Memory),
        Err(LineNo::Json | LineNo::Form(_) | LineNo::Range(_)) => Err(BadHistory::Line(place)),
    }
}

/// The entries that some bytes say: of each line, up to the end of the bytes, the entry that [`read_entry`] gives of it, in order; or the place
/// of the first line of which it gives none. The last line may lack its 0x0A. An empty line is a line, and says no entry.
pub fn read_all(alloc: Global, bytes: &[u8]) -> Result<Entries, BadHistory>
    ensures read { IfOk result (AreReadAsEntries (lines_of bytes.now)) }
    ensures ready { IfOk result (All IsReadyToDecide) }
    ensures bad { IfErr result (IsBad bytes.now) }
{
    let mut entries = Entries::make(alloc)?;
    let mut scratch = Scratch::new(alloc);
    let mut rest = bytes;
    while !rest.is_empty() {
        let (line, others) = first_line(rest);
        let place = entries.items().len() as u64;
        let entry = read_line(alloc, &mut scratch, line, place)?;
        entries.push(entry)?;
        rest = others;
    }
    Ok(entries)
}
