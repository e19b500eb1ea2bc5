//! Lines read from the input and answered on the output, up to the last one.
ghost use Rattle.std.specs.Prelude.{◌≡◌, ◌<◌, ◌≤◌, ◌^◌, ◌+◌, ◌&&◌, ℕ, List, [], None, Some, Contains, IfNone, IfOk, false, true, vec_capacity};
ghost use Rattle.std.specs.declared.option.Option.{Option};
ghost use Rattle.std.specs.Thread.{IsSync};
ghost use Rattle.mt_io.specs.Reading.{fresh};
ghost use Rattle.mt_lines.specs.Answering.{Explains};
ghost use Rattle.mt_lines.specs.Streams.{LeavesStream};
ghost use Rattle.mt_lines.specs.declared.ending.Ending.TheVariants as endings;
ghost use Rattle.mt_top.specs.Private.Lines.{IsSettingUp, LinesEnd, LinesSoFar, LinesTurned};
ghost use Rattle.mt_top.specs.Run.{AnswersMean};
ghost use Rattle.mt_top.specs.declared.status.Status.TheVariants.{ReadFault, WriteFault};
ghost use Rattle.mt_world.specs.World.{opening_world, setup_of};

use crate::answering::Answers;
use crate::status::Status;
use mt_base::Memory;
use mt_io::{Line, LineReader, Sink, Source};
use mt_lines::{Ending, Outgoing};
use mt_picture::Picture;
use mt_wire::{Reply, Scratch};
use mt_world::Script;
use std::alloc::Global;
use std::thread::Threads;

/// What reads the lines, what answers them, as that of a script, a scratch for texts of lines, and the replies that wait to be written.
#[derive(Drop)]
pub(crate) struct Lines<A> {
    reader: LineReader,
    scratch: Scratch,
    script: A,
    outgoing: Outgoing,
}

impl Lines<Script> {
    /// The picture that has begun, and the room in which replies were written, which has 65,536 bytes.
    pub(crate) fn into_picture(self) -> (Picture, Vec<u8>)
        requires { self.script.begun ≡ true }
        ensures picture { result.0 ≡ record { setup = setup_of self.script; history = self.script.history } }
        ensures room { 65536 ≤ vec_capacity result.1 }
    {
        let Lines {
            script,
            outgoing,
            ..
        } = self;
        (script.into_picture(), outgoing.into_room())
    }
}

impl<A: Answers> Lines<A> {
    /// The lines before the first one: all memory is taken that is taken before it.
    pub(crate) fn make(alloc: Global) -> Result<Lines<A>, Memory>
        ensures reader { IfOk result (λ lines. lines.reader ≡ fresh) }
        ensures script { IfOk result (λ lines. A.world lines.script ≡ opening_world) }
        ensures outgoing { IfOk result (λ lines. lines.outgoing ≡ []) }
    {
        Ok(Lines {
            reader: LineReader::make(alloc)?,
            scratch: Scratch::new(alloc),
            script: A::make(alloc)?,
            outgoing: Outgoing::make(alloc)?,
        })
    }

    /// Answers the lines of the input on the output, to its end or to the line that ends them.
    pub(crate) fn answer_input<R: Threads + Sync, S: Source, K: Sink>(
        rt: &R,
        alloc: Global,
        input: &mut S,
        output: &mut K,
    ) -> Status
        requires sync { IsSync R.row }
        ensures means { Explains (AnswersMean A.replied result) (S.left input.old) (S.left input.new) (K.held output.old) (K.held output.new) }
        ensures input { LeavesStream (result ≡ ReadFault) (S.faults input.old) (S.faults input.new) (S.reads_to input.old input.new) }
        ensures output { LeavesStream (result ≡ WriteFault) (K.faults output.old) (K.faults output.new) (K.writes_to output.old output.new) }
    {
        match Lines::<A>::make(alloc) {
            Ok(mut lines) => {
                let ending = lines.answer_all(rt, alloc, false, input, output);
                lines.script.keeps();
                Status::of(ending)
            }
            Err(_) => Status::Memory,
        }
    }

    /// Whether the picture has begun.
    pub(crate) fn have_begun(&self) -> bool
        ensures { result ≡ (A.world self.now.script).begun }
    {
        self.script.has_begun()
    }

    /// Answers the lines of the input up to the last one: its end; a line that is answered with a farewell; or, where the lines are to set a
    /// picture up, the one that begins it.
    ///
    /// Replies wait while whole lines wait in the reader, and are written before the input is read and at the end.
    pub(crate) fn answer_all<R: Threads + Sync, S: Source, K: Sink>(
        &mut self,
        rt: &R,
        alloc: Global,
        until_begun: bool,
        input: &mut S,
        output: &mut K,
    ) -> Ending
        requires sync { IsSync R.row }
        requires first { (self.old.reader ≡ fresh) × (A.world self.old.script ≡ opening_world) }
        requires none { self.old.outgoing ≡ [] }
        ensures means { Explains (LinesEnd A.replied until_begun (A.world self.new.script) result) (S.left input.old) (S.left input.new) (K.held output.old) (K.held output.new) }
        ensures setting { IsSettingUp until_begun (Some result) (A.world self.new.script) }
        ensures input { LeavesStream (result ≡ endings.ReadFault) (S.faults input.old) (S.faults input.new) (S.reads_to input.old input.new) }
        ensures output { LeavesStream (result ≡ endings.WriteFault) (K.faults output.old) (K.faults output.new) (K.writes_to output.old output.new) }
    {
        loop {
            if let Some(ending) = self.turn(rt, alloc, until_begun, input, output) {
                return match self.outgoing.flush(output) {
                    Ok(()) => ending,
                    Err(_) => Ending::WriteFault,
                };
            }
        }
    }

    // Writes the replies that wait where no whole line is ahead; then reads one line and answers it. An ending where it is the last one.
    fn turn<R: Threads + Sync, S: Source, K: Sink>(
        &mut self,
        rt: &R,
        alloc: Global,
        until_begun: bool,
        input: &mut S,
        output: &mut K,
    ) -> Option<Ending>
        requires sync { IsSync R.row }
        requires sound { self.old.reader.fault ≡ None }
        requires setting { IsSettingUp until_begun None (A.world self.old.script) }
        ensures turned { (before : Option (List ℕ)) (sent : List ℕ)
            → LinesSoFar A.replied until_begun before (S.left input.old) sent self.old.outgoing self.old.reader (A.world self.old.script)
            → LinesTurned A.replied until_begun result before (S.left input.new) sent (K.held output.old) (K.held output.new) self.new.outgoing
            self.new.reader (A.world self.new.script) }
        ensures rises { IfNone result ((self.new.reader.given ≡ self.old.reader.given + 1) × (self.new.reader.given ≤ 2 ^ 32) × (self.new.reader.fault ≡ None)) }
        ensures setting { IsSettingUp until_begun result (A.world self.new.script) }
        ensures input { LeavesStream (result ≡ Some endings.ReadFault) (S.faults input.old) (S.faults input.new) (S.reads_to input.old input.new) }
        ensures output { LeavesStream (result ≡ Some endings.WriteFault) (K.faults output.old) (K.faults output.new) (K.writes_to output.old output.new) }
    {
        match self.outgoing.ready(self.reader.has_line(), output) {
            Ok(()) => self.answer_next(rt, alloc, until_begun, input, output),
            Err(_) => Some(Ending::WriteFault),
        }
    }

    // Reads one line and answers it; an ending where it is the last one. Nobody waits for a reply while it waits for input: where no whole line is
    // ahead, no reply waits.
    fn answer_next<R: Threads + Sync, S: Source, K: Sink>(
        &mut self,
        rt: &R,
        alloc: Global,
        until_begun: bool,
        input: &mut S,
        output: &mut K,
    ) -> Option<Ending>
        requires sync { IsSync R.row }
        requires sound { self.old.reader.fault ≡ None }
        requires idle { ¬ Contains self.old.reader.store.ahead 10 → self.old.outgoing ≡ [] }
        requires setting { IsSettingUp until_begun None (A.world self.old.script) }
        ensures turned { (before : Option (List ℕ)) (sent : List ℕ)
            → LinesSoFar A.replied until_begun before (S.left input.old) sent self.old.outgoing self.old.reader (A.world self.old.script)
            → LinesTurned A.replied until_begun result before (S.left input.new) sent (K.held output.old) (K.held output.new) self.new.outgoing
            self.new.reader (A.world self.new.script) }
        ensures rises { IfNone result ((self.new.reader.given ≡ self.old.reader.given + 1) × (self.new.reader.given ≤ 2 ^ 32) × (self.new.reader.fault ≡ None)) }
        ensures setting { IsSettingUp until_begun result (A.world self.new.script) }
        ensures input { LeavesStream (result ≡ Some endings.ReadFault) (S.faults input.old) (S.faults input.new) (S.reads_to input.old input.new) }
        ensures output { LeavesStream (result ≡ Some endings.WriteFault) (K.faults output.old) (K.faults output.new) (K.writes_to output.old output.new) }
    {
        self.script.reply_law();
        match self.reader.next(input) {
            Ok(Line::Text(line)) => {
                let reply = self.script.answer(rt, alloc, &mut self.scratch, line);
                let given = self.outgoing.give(alloc, &reply, false, output);
                Ending::after(given, is_set_up(until_begun, &self.script))
            }
            Ok(Line::Long) => {
                let given = self.outgoing.give(alloc, &Reply::Long, false, output);
                Ending::after(given, false)
            }
            Ok(Line::End) => Some(Ending::End),
            Err(fault) => Some(Ending::of(fault)),
        }
    }
}

// Whether the picture has begun that the lines are to set up.
fn is_set_up<A: Answers>(until_begun: bool, script: &A) -> bool
    ensures { result ≡ until_begun && (A.world script.now).begun }
{
    until_begun && script.has_begun()
}
