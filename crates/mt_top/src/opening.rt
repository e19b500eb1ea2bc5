//! The lines that set a picture up, read from the input and answered on the output, up to the one that begins it.
ghost use Rattle.std.specs.Prelude.{◌≡◌, ◌≤◌, [], Err, IfOk, IfErr, vec_capacity};
ghost use Rattle.std.specs.Thread.{IsSync};
ghost use Rattle.mt_lines.specs.Answering.{Explains};
ghost use Rattle.mt_lines.specs.Streams.{LeavesStream};
ghost use Rattle.mt_top.specs.Opening.{BeginsPicture, OpeningMeans};
ghost use Rattle.mt_top.specs.declared.status.Status.TheVariants.{ReadFault, WriteFault};

use crate::lines::Lines;
use crate::status::Status;
use mt_io::{Sink, Source};
use mt_picture::Picture;
use mt_world::Script;
use std::alloc::Global;
use std::thread::Threads;

/// Answers the lines of the input up to the one that begins the picture, and gives the picture; or the status with which no line more is
/// answered. It takes its memory before the first line, and gives back the room in which replies were written, which has 65,536 bytes.
pub(crate) fn open<R: Threads + Sync, S: Source, K: Sink>(
    rt: &R,
    alloc: Global,
    input: &mut S,
    output: &mut K,
) -> Result<(Picture, Vec<u8>), Status>
    requires sync { IsSync R.row }
    ensures begins { IfOk result (λ r. Explains (λ input left written. BeginsPicture input left written r.0) (S.left input.old) (S.left input.new) (K.held output.old) (K.held output.new)) }
    ensures room { IfOk result (λ r. 65536 ≤ vec_capacity r.1) }
    ensures opening { IfOk result (λ r. r.0.history ≡ []) }
    ensures over { IfErr result (λ status. Explains (OpeningMeans status) (S.left input.old) (S.left input.new) (K.held output.old) (K.held output.new)) }
    ensures input { LeavesStream (result ≡ Err ReadFault) (S.faults input.old) (S.faults input.new) (S.reads_to input.old input.new) }
    ensures output { LeavesStream (result ≡ Err WriteFault) (K.faults output.old) (K.faults output.new) (K.writes_to output.old output.new) }
{
    let Ok(mut lines) = Lines::<Script>::make(alloc) else {
        return Err(Status::Memory);
    };
    let status = Status::of(lines.answer_all(rt, alloc, true, input, output));
    if !status.is_done() {
        return Err(status);
    }
    if !lines.have_begun() {
        return Err(Status::Setup);
    }
    Ok(lines.into_picture())
}
