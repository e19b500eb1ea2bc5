//! Links served over a picture that lines of the input set up.
ghost use Rattle.std.specs.Prelude.{◌≡◌, ◌≤◌, ◌+◌, ◌^◌, vec_capacity};
ghost use Rattle.std.specs.Thread.{IsSync};
ghost use Rattle.mt_io.specs.Causes.{Rose};
ghost use Rattle.mt_lines.specs.Answering.{Explains};
ghost use Rattle.mt_lines.specs.Streams.{LeavesStream};
ghost use Rattle.mt_top.specs.Serve.{IsClosingLine, ServeMeans};
ghost use Rattle.mt_top.specs.Private.Serve.{SaysClosing};
ghost use Rattle.mt_top.specs.declared.status.Status.TheVariants.{DoorFault, ReadFault, WriteFault};

use crate::opening::open;
use crate::status::Status;
use mt_io::{Door, Gate, Sink, Source, put_all};
use mt_serve::{Served, put_closing, sum_up};
use std::alloc::Global;
use std::sync::Wait;
use std::thread::Threads;

/// What is to be served: links at a port, by so many sessions, with so many workers.
#[derive(Drop)]
pub(crate) struct ServeTask {
    pub(crate) port: u16,
    pub(crate) sessions: u32,
    pub(crate) workers: u32,
}

// Puts the line that sums up what was served into the room, which is emptied and takes it all.
fn sum_up_in(room: &mut Vec<u8>, served: &Served)
    requires { 65536 ≤ vec_capacity room.old }
    ensures { IsClosingLine served.now.picture served.now.counts room.new.items }
{
    room.clear();
    let Ok(()) = put_closing(room, &sum_up(served)) else {
        unreachable!()
    };
}

// Writes the line that sums up what was served. After a fault of the door that is the status, whatever the output does.
fn close<K: Sink>(room: &mut Vec<u8>, served: &Served, output: &mut K) -> Status
    requires room { 65536 ≤ vec_capacity room.old }
    ensures said { SaysClosing served.now.picture served.now.counts served.now.faulted (K.faults output.old) (K.faults output.new) result (K.held output.old) (K.held output.new) }
    ensures output { LeavesStream (result ≡ WriteFault) (K.faults output.old) (K.faults output.new) (K.writes_to output.old output.new) }
{
    sum_up_in(room, served);
    let written = put_all(output, room);
    if served.faulted {
        return Status::DoorFault;
    }
    match written {
        Ok(()) => Status::Done,
        Err(_) => Status::WriteFault,
    }
}

/// Answers the lines of the input up to the one that begins the picture, serves the links of the door over it, and writes the line that sums up
/// what was served.
///
/// The definition is `ServeMeans`. The room of 65,536 bytes for replies and the summary is taken before the first line, and what serving takes
/// before the door is called. `Memory` comes then, and at no later time.
pub(crate) fn serve<R: Threads + Wait + Sync, S: Source, K: Sink, D: Door, G: Gate + Sync>(
    rt: &R,
    alloc: Global,
    task: ServeTask,
    input: &mut S,
    output: &mut K,
    door: &mut D,
    gate: &G,
) -> Status
    requires sync { IsSync R.row }
    requires few { task.sessions + task.workers ≤ 2 ^ 31 }
    ensures means { Explains (ServeMeans D.Link.Source D.Link.Sink task.port task.sessions task.workers
        (record { count = D.count door.old; still = D.still door.old; returned = D.returned door.old; faults = D.faults door.old })
        (record { count = D.count door.new; still = D.still door.new; returned = D.returned door.new; faults = D.faults door.new })
        (K.faults output.old) (K.faults output.new) result)
        (S.left input.old) (S.left input.new) (K.held output.old) (K.held output.new) }
    ensures input { LeavesStream (result ≡ ReadFault) (S.faults input.old) (S.faults input.new) (S.reads_to input.old input.new) }
    ensures output { LeavesStream (result ≡ WriteFault) (K.faults output.old) (K.faults output.new) (K.writes_to output.old output.new) }
    ensures door { result ≡ DoorFault → Rose (D.faults door.old) (D.faults door.new) }
{
    let (picture, mut room) = match open(rt, alloc, input, output) {
        Ok(opened) => opened,
        Err(status) => return status,
    };
    let ServeTask {
        port,
        sessions,
        workers,
    } = task;
    match mt_serve::serve(rt, alloc, picture, port, sessions, workers, door, gate) {
        Ok(served) => close(&mut room, &served, output),
        Err(_) => Status::Memory,
    }
}
