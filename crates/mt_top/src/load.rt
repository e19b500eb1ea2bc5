//! A large input, made and summed up.
ghost use Rattle.std.specs.Prelude.{◌≡◌, ◌≤◌, ℕ, List, IfOk};
ghost use Rattle.std.specs.declared.option.Option.{Option};
ghost use Rattle.mt_lines.specs.Answering.{Explains};
ghost use Rattle.mt_lines.specs.Streams.{LeavesStream};
ghost use Rattle.mt_top.specs.Load.{IsSummaryLine, LoadMeans};
ghost use Rattle.mt_top.specs.declared.status.Status.TheVariants.{WriteFault};

use crate::status::Status;
use mt_base::Memory;
use mt_io::{Sink, put_all};
use mt_load::write_summary;
use std::alloc::Global;
use std::thread::Threads;

// The line of the summary.
fn line<R: Threads + Sync>(
    rt: &R,
    alloc: Global,
    flights: u32,
    number: u64,
) -> Result<Vec<u8>, Memory>
    requires { (1 ≤ flights) × (flights ≤ 1024) }
    ensures { IfOk result (λ line. IsSummaryLine flights number line.items) }
{
    write_summary(alloc, &mt_load::load(rt, alloc, flights, number)?)
}

/// Makes the load run of so many flights and a number, and writes its summary line. No input is read, whatever it has left.
pub(crate) fn load<R: Threads + Sync, K: Sink>(
    rt: &R,
    alloc: Global,
    flights: u32,
    number: u64,
    output: &mut K,
) -> Status
    requires { (1 ≤ flights) × (flights ≤ 1024) }
    ensures means { (left : Option (List ℕ)) → Explains (LoadMeans flights number result) left left (K.held output.old) (K.held output.new) }
    ensures output { LeavesStream (result ≡ WriteFault) (K.faults output.old) (K.faults output.new) (K.writes_to output.old output.new) }
{
    let Ok(line) = line(rt, alloc, flights, number) else {
        return Status::Memory;
    };
    match put_all(output, &line) {
        Ok(()) => Status::Done,
        Err(_) => Status::WriteFault,
    }
}
