//! A session, from its first line to its last.
ghost use Rattle.std.specs.Prelude.{◌≡◌, ◌≤◌, ◌^◌, ◌+◌, ℕ, List, [], None, Some, Contains, IfNone, IfOk, is_some, true, false};
ghost use Rattle.std.specs.declared.option.Option.{Option};
ghost use Rattle.mt_io.specs.Causes.{Rose};
ghost use Rattle.mt_io.specs.Reading.{fresh};
ghost use Rattle.mt_lines.specs.Answering.{Explains};
ghost use Rattle.mt_lines.specs.Fit.{IsFit};
ghost use Rattle.mt_lines.specs.Streams.{LeavesStream, TellsFault};
ghost use Rattle.mt_lines.specs.declared.ending.Ending.TheVariants as endings;
ghost use Rattle.mt_board.specs.Book.{empty_book};
ghost use Rattle.std.specs.Thread.{IsSync};
ghost use Rattle.mt_session.specs.Following.{Standing};
ghost use Rattle.mt_session.specs.Private.Keeping.{StaysOn};
ghost use Rattle.mt_session.specs.Outboxes.{outbox_after, outbox_before};
ghost use Rattle.mt_session.specs.Run.{IsNoLinkFault, IsSession};
ghost use Rattle.mt_session.specs.Private.SoFar.{GivesTill, IsDoneUnless, SessionRuns, SessionEnds, SessionTurned};

use crate::outcome::Outcome;
use crate::serving::Serving;
use mt_base::{Callsign, Memory};
use mt_board::{Board, Book};
use mt_io::{Duplex, Gate, Line, LineReader, Sink};
use mt_lines::{Ending, Outgoing};
use mt_wire::{Reply, Scratch};
use mt_workers::{NoOutbox, Outbox};
use std::alloc::Global;
use std::sync::Wait;
use std::thread::Threads;

/// Answers the lines of a link over a board, to its end or to the line that ends the session, and gives the board back. It takes its memory
/// before the first line: the reader, the book, and the room for a reply that follows a change and for those that wait.
///
/// Tries and advice of lines that are ahead together are answered from one look at the picture, which was taken when they all had come.
///
/// Replies wait while a whole line is ahead, and all that wait are written at once: before a read that may block, so that none is held back while
/// the session waits for its peer; before a job is handed on; where 65,536 bytes wait; and at the end.
///
/// Once the reply to a report with a flag is written, the flight's job is handed to the outbox; where there is none, or the job comes back,
/// the session renews the flight itself.
///
/// However it ends, the link is shut then, once all that is written to it was.
///
/// `session` is the whole promise, by the outcome; `complete`: an outcome that is a fault comes only where a count of the link rose; `shut`: to
/// shut it was the last that was done to the link.
pub fn session<R: Threads + Wait + Sync, B: Board, L: Duplex, O: Outbox, G: Gate>(
    rt: &R,
    alloc: Global,
    board: B,
    link: &mut L,
    jobs: Option<&mut O>,
    gate: &G,
) -> (B, Outcome)
    requires sync { IsSync R.row }
    ensures session { IsSession (B.seat board) (B.seat result.0)
        (record { left = L.left link.old; held = L.held link.old; read_faults = L.Source.faults link.old; write_faults = L.Sink.faults link.old })
        (record { left = L.left link.new; held = L.held link.new; read_faults = L.Source.faults link.new; write_faults = L.Sink.faults link.new })
        (outbox_before O.jobs jobs.entry) (outbox_after O.jobs jobs.exit) result.1 }
    ensures complete { ¬ Rose (L.Source.faults link.old) (L.Source.faults link.new) → ¬ Rose (L.Sink.faults link.old) (L.Sink.faults link.new)
        → IsNoLinkFault result.1 }
    ensures home { B.home result.0 ≡ B.home board }
    ensures shut { (last : L) × L.shuts_to last link.new }
{
    match jobs {
        Some(outbox) => serve_link(rt, alloc, board, link, outbox, gate),
        None => serve_link(rt, alloc, board, link, &mut NoOutbox, gate),
    }
}

// The same over an outbox.
fn serve_link<R: Threads + Wait + Sync, B: Board, L: Duplex, O: Outbox, G: Gate>(
    rt: &R,
    alloc: Global,
    board: B,
    link: &mut L,
    jobs: &mut O,
    gate: &G,
) -> (B, Outcome)
    requires sync { IsSync R.row }
    ensures session { IsSession (B.seat board) (B.seat result.0)
        (record { left = L.left link.old; held = L.held link.old; read_faults = L.Source.faults link.old; write_faults = L.Sink.faults link.old })
        (record { left = L.left link.new; held = L.held link.new; read_faults = L.Source.faults link.new; write_faults = L.Sink.faults link.new })
        (Some (O.jobs jobs.old)) (Some (O.jobs jobs.new)) result.1 }
    ensures home { B.home result.0 ≡ B.home board }
    ensures shut { (last : L) × L.shuts_to last link.new }
{
    let (board, outcome) = answer_link(rt, alloc, board, link, jobs, gate);
    link.shut();
    (board, outcome)
}

// Answers the lines of a link over an outbox.
fn answer_link<R: Threads + Wait + Sync, B: Board, L: Duplex, O: Outbox, G: Gate>(
    rt: &R,
    alloc: Global,
    board: B,
    link: &mut L,
    jobs: &mut O,
    gate: &G,
) -> (B, Outcome)
    requires sync { IsSync R.row }
    ensures session { IsSession (B.seat board) (B.seat result.0)
        (record { left = L.left link.old; held = L.held link.old; read_faults = L.Source.faults link.old; write_faults = L.Sink.faults link.old })
        (record { left = L.left link.new; held = L.held link.new; read_faults = L.Source.faults link.new; write_faults = L.Sink.faults link.new })
        (Some (O.jobs jobs.old)) (Some (O.jobs jobs.new)) result.1 }
    ensures home { B.home result.0 ≡ B.home board }
{
    let Ok((reader, book, outgoing)) = memory(alloc) else {
        return (board, Outcome::Memory);
    };
    let mut lines = Lines {
        reader,
        scratch: Scratch::new(alloc),
        serving: Serving::of(board, book),
        outgoing,
    };
    let ending = lines.answer_all(rt, alloc, link, jobs, gate);
    (lines.board(), Outcome::of(ending))
}

// What a session takes before its first line: its reader, its book, and the room for its replies.
fn memory<P: Drop>(alloc: Global) -> Result<(LineReader, Book<P>, Outgoing), Memory>
    ensures reader { IfOk result (λ taken. taken.0 ≡ fresh) }
    ensures book { IfOk result (λ taken. taken.1 ≡ empty_book) }
    ensures outgoing { IfOk result (λ taken. taken.2 ≡ []) }
{
    let reader = LineReader::make(alloc)?;
    let book = Book::make(alloc)?;
    let outgoing = Outgoing::make(alloc)?;
    Ok((reader, book, outgoing))
}

// The lines of a link: what reads them, what answers them, a scratch for texts with escapes, and the replies that wait.
struct Lines<B: Board> {
    reader: LineReader,
    scratch: Scratch,
    serving: Serving<B>,
    outgoing: Outgoing,
}

impl<B: Board> Lines<B> {
    // The board.
    fn board(self) -> B
        ensures seat { B.seat result ≡ self.serving.session.seat }
        ensures home { B.home result ≡ self.serving.home }
    {
        let Lines {
            reader: _reader,
            scratch: _scratch,
            serving,
            outgoing: _outgoing,
        } = self;
        serving.board()
    }

    // Answers line by line, and writes what waits at the end.
    fn answer_all<R: Threads + Wait + Sync, L: Duplex, O: Outbox, G: Gate>(
        &mut self,
        rt: &R,
        alloc: Global,
        link: &mut L,
        jobs: &mut O,
        gate: &G,
    ) -> Ending
        requires sync { IsSync R.row }
        requires sound { self.old.reader.fault ≡ None }
        requires bound { self.old.reader.given ≤ 2 ^ 32 }
        requires none { self.old.outgoing ≡ [] }
        ensures ended { (start : Standing) (before : Option (List ℕ))
            → SessionRuns start before (L.left link.old) [] [] self.old.reader (record { session = self.old.serving.session; jobs = O.jobs jobs.old })
            → Explains (SessionEnds start (record { session = self.new.serving.session; jobs = O.jobs jobs.new }) result)
            before (L.left link.new) (L.held link.old) (L.held link.new) }
        ensures on { StaysOn self.old.serving self.new.serving }
        ensures reads { TellsFault (result ≡ endings.ReadFault) (L.Source.faults link.old) (L.Source.faults link.new) }
        ensures writes { TellsFault (result ≡ endings.WriteFault) (L.Sink.faults link.old) (L.Sink.faults link.new) }
    {
        loop {
            if let Some(ending) = self.turn(rt, alloc, link, jobs, gate) {
                return match self.outgoing.flush(link) {
                    Ok(()) => ending,
                    Err(_) => Ending::WriteFault,
                };
            }
        }
    }

    // Writes the replies that wait where no whole line is ahead; then reads one line and answers it. An ending where the session ends with it.
    fn turn<R: Threads + Wait + Sync, L: Duplex, O: Outbox, G: Gate>(
        &mut self,
        rt: &R,
        alloc: Global,
        link: &mut L,
        jobs: &mut O,
        gate: &G,
    ) -> Option<Ending>
        requires sync { IsSync R.row }
        requires sound { self.old.reader.fault ≡ None }
        ensures turned { (start : Standing) (before : Option (List ℕ)) (sent : List ℕ)
            → SessionRuns start before (L.left link.old) sent self.old.outgoing self.old.reader (record { session = self.old.serving.session; jobs = O.jobs jobs.old })
            → SessionTurned start result before (L.left link.new) sent (L.held link.old) (L.held link.new) self.new.outgoing
            self.new.reader (record { session = self.new.serving.session; jobs = O.jobs jobs.new }) }
        ensures rises { IfNone result ((self.new.reader.given ≡ self.old.reader.given + 1) × (self.new.reader.given ≤ 2 ^ 32) × (self.new.reader.fault ≡ None)) }
        ensures on { StaysOn self.old.serving self.new.serving }
        ensures reads { TellsFault (result ≡ Some endings.ReadFault) (L.Source.faults link.old) (L.Source.faults link.new) }
        ensures writes { TellsFault (result ≡ Some endings.WriteFault) (L.Sink.faults link.old) (L.Sink.faults link.new) }
    {
        let ahead = self.reader.has_line();
        self.serving.before_read(ahead);
        match self.outgoing.ready(ahead, link) {
            Ok(()) => self.answer_next(rt, alloc, link, jobs, gate),
            Err(_) => Some(Ending::WriteFault),
        }
    }

    // Reads one line and answers it; an ending where the session ends with it. Where no whole line is ahead, so that the read may block, no reply
    // waits, so that no peer waits for one meanwhile; and no look at the picture is kept, so that what comes is answered from a version that is no
    // older than it.
    fn answer_next<R: Threads + Wait + Sync, L: Duplex, O: Outbox, G: Gate>(
        &mut self,
        rt: &R,
        alloc: Global,
        link: &mut L,
        jobs: &mut O,
        gate: &G,
    ) -> Option<Ending>
        requires sync { IsSync R.row }
        requires sound { self.old.reader.fault ≡ None }
        requires idle { ¬ Contains self.old.reader.store.ahead 10 → self.old.outgoing ≡ [] }
        requires anew { ¬ Contains self.old.reader.store.ahead 10 → self.old.serving.keeps_look ≡ false }
        ensures turned { (start : Standing) (before : Option (List ℕ)) (sent : List ℕ)
            → SessionRuns start before (L.left link.old) sent self.old.outgoing self.old.reader (record { session = self.old.serving.session; jobs = O.jobs jobs.old })
            → SessionTurned start result before (L.left link.new) sent (L.held link.old) (L.held link.new) self.new.outgoing
            self.new.reader (record { session = self.new.serving.session; jobs = O.jobs jobs.new }) }
        ensures rises { IfNone result ((self.new.reader.given ≡ self.old.reader.given + 1) × (self.new.reader.given ≤ 2 ^ 32) × (self.new.reader.fault ≡ None)) }
        ensures on { StaysOn self.old.serving self.new.serving }
        ensures reads { TellsFault (result ≡ Some endings.ReadFault) (L.Source.faults link.old) (L.Source.faults link.new) }
        ensures writes { TellsFault (result ≡ Some endings.WriteFault) (L.Sink.faults link.old) (L.Sink.faults link.new) }
    {
        match self.reader.next(link) {
            Ok(Line::Text(line)) => {
                let (reply, job) = self
                    .serving
                    .answer(rt, alloc, &mut self.scratch, line, gate);
                self.finish(rt, alloc, reply, job, link, jobs, gate)
            }
            Ok(Line::Long) => self.finish(rt, alloc, Reply::Long, None, link, jobs, gate),
            Ok(Line::End) => Some(Ending::End),
            Err(fault) => Some(Ending::of(fault)),
        }
    }

    // Gives a reply, and does what follows once it is written; an ending where the session ends with it. Where a job follows, no reply waits.
    fn finish<R: Threads + Wait + Sync, K: Sink, O: Outbox, G: Gate>(
        &mut self,
        rt: &R,
        alloc: Global,
        reply: Reply,
        job: Option<Callsign>,
        output: &mut K,
        jobs: &mut O,
        gate: &G,
    ) -> Option<Ending>
        requires sync { IsSync R.row }
        requires fit { IsFit reply }
        ensures given { GivesTill reply result self.old.outgoing self.new.outgoing (K.held output.old) (K.held output.new) }
        ensures done { IsDoneUnless result job (record { session = self.old.serving.session; jobs = O.jobs jobs.old })
            (record { session = self.new.serving.session; jobs = O.jobs jobs.new }) }
        ensures on { StaysOn self.old.serving self.new.serving }
        ensures output { LeavesStream (result ≡ Some endings.WriteFault) (K.faults output.old) (K.faults output.new) (K.writes_to output.old output.new) }
        ensures written { IfNone result (is_some job ≡ true → self.new.outgoing ≡ []) }
        ensures reader { self.new.reader ≡ self.old.reader }
    {
        let given = self.outgoing.give(alloc, &reply, job.is_some(), output);
        if let Some(ending) = Ending::after(given, false) {
            return Some(ending);
        }
        self.serving.follow(rt, job, jobs, gate);
        None
    }
}
