//! The summary of what was served, and its line.
ghost use Rattle.std.specs.Prelude.{◌≡◌, ◌≤◌, ◌+◌, ◌++◌, OnOk, Ok, vec_capacity, vec_len};
ghost use Rattle.mt_serve.specs.Closing.{IsClosing, closing_text};

use crate::service::Served;
use mt_lines::put_number;
use mt_memory::Memory;
use mt_picture::sizes_of;

/// What serving is summed up as: what the closed picture holds, and the sessions by how they ended.
#[derive(Clone, Copy, Debug, PartialEq, Eq)]
pub struct Closing {
    /// How many conflicts are published.
    pub conflicts: u64,
    /// How many entries there are.
    pub entries: u64,
    /// How many sessions a fault of their link ended, or the end of the bytes that a link may give.
    pub faulted: u64,
    /// How many flights there are.
    pub flights: u64,
    /// How many sessions there were.
    pub sessions: u64,
    /// How many sessions found no memory before their first line.
    pub starved: u64,
}

/// Sums up what was served, by the definition `IsClosing`.
pub fn sum_up(served: &Served) -> Closing
    ensures { IsClosing served.now.picture served.now.counts result }
{
    let held = sizes_of(&served.picture);
    let counts = served.counts;
    Closing {
        conflicts: held.conflicts,
        entries: held.entries,
        faulted: counts.faulted,
        flights: held.flights,
        sessions: counts.sessions,
        starved: counts.starved,
    }
}

/// Puts the line of a summary after what stands: one compact object, its keys in byte order, and 0x0A at its end. It has at most 191 bytes.
/// `Memory` is the one error, and a front of the line may stand there then; where there is room for the line it succeeds.
pub fn put_closing(line: &mut Vec<u8>, closing: &Closing) -> Result<(), Memory>
    ensures put { OnOk result (line.new.items ≡ line.old.items ++ closing_text closing.now) }
    ensures room { vec_len line.old + 191 ≤ vec_capacity line.old → result ≡ Ok tt }
{
    put_number(line, b"{\"conflicts\":", closing.conflicts)?;
    put_number(line, b",\"entries\":", closing.entries)?;
    put_number(line, b",\"faulted\":", closing.faulted)?;
    put_number(line, b",\"flights\":", closing.flights)?;
    put_number(line, b",\"sessions\":", closing.sessions)?;
    put_number(line, b",\"starved\":", closing.starved)?;
    line.extend_from_slice(b"}\n")?;
    Ok(())
}
