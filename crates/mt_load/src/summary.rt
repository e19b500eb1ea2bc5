//! A summary, and its line.
ghost use Rattle.std.specs.Prelude.{◌≡◌, IfOk};
ghost use Rattle.mt_load.specs.Summary.{summary_text};

use mt_lines::put_number;
use mt_memory::Memory;
use std::alloc::Global;

/// What a load run is summed up as.
#[derive(Clone, Copy, Debug, PartialEq, Eq)]
pub struct Summary {
    /// How many conflicts are published of the picture that is rebuilt of its history, printed and read back.
    pub again: u64,
    /// How many conflicts are published.
    pub conflicts: u64,
    /// How many entries there are.
    pub entries: u64,
    /// How many flights there are.
    pub flights: u64,
    /// How many pairs were tested for what was entered; those of advice and of the rebuilding aren't counted.
    pub tests: u64,
}

/// The line of a summary: one compact object, its keys in byte order, and 0x0A at its end.
pub fn write_summary(alloc: Global, summary: &Summary) -> Result<Vec<u8>, Memory>
    ensures { IfOk result (λ line. line.items ≡ summary_text summary.now) }
{
    let mut line = Vec::new(alloc);
    put_number(&mut line, b"{\"again\":", summary.again)?;
    put_number(&mut line, b",\"conflicts\":", summary.conflicts)?;
    put_number(&mut line, b",\"entries\":", summary.entries)?;
    put_number(&mut line, b",\"flights\":", summary.flights)?;
    put_number(&mut line, b",\"tests\":", summary.tests)?;
    line.extend_from_slice(b"}\n")?;
    Ok(line)
}
