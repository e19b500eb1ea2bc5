//! A reader of lines over any source.
ghost use Rattle.std.specs.Prelude.{◌≡◌, ◌≤◌, ◌↔◌, ◌^◌, None, Contains, IfOk, IsTrue, MatchResult};
ghost use Rattle.std.specs.Borrow.{sem};
ghost use Rattle.std.specs.Io.BufRead.{Rests};
ghost use Rattle.mt_io.specs.Causes.{Rose};
ghost use Rattle.mt_io.specs.Reading.{IsStopped, Next, fresh};
ghost use Rattle.mt_io.specs.Private.Gathering.{GivesStep};
ghost use Rattle.mt_io.specs.contracts.line_reader.LineReader.{the_row};

use crate::ahead::Ahead;
use crate::gathered::Gathered;
use crate::line::{Line, LineFault, Step};
use crate::read_line::read_line;
use crate::source::Source;
use mt_memory::Memory;
use std::alloc::Global;
use std::marker::Model;

/// Reads the lines of a source, one by one, and takes at most 2^32 bytes of it. Contracts see it as a `Reading`.
#[derive(Drop)]
pub struct LineReader {
    ahead: Ahead,
    line: Gathered,
    given: u64,
    fault: Option<LineFault>,
}

impl Model for LineReader {
    ghost use Rattle.mt_io.specs.Reading.{Reading};
    ghost use Rattle.mt_io.specs.Private.Reading.{IsReaderSound};
    ghost use Rattle.mt_io.specs.Private.Gathering.{reading};

    ghost Value = { Reading };

    ghost view = { λ r. reading r.ahead r.given r.fault r.line.bytes.items };

    ghost invariant = { λ r. IsReaderSound r.ahead r.given r.fault };
}

impl LineReader {
    /// A reader that has taken no byte and met no fault. It takes all its memory here.
    pub fn make(alloc: Global) -> Result<LineReader, Memory>
        ensures { IfOk result (λ reader. reader ≡ fresh) }
    {
        Ok(LineReader {
            ahead: Ahead::make(alloc)?,
            line: Gathered::make(alloc)?,
            given: 0,
            fault: None,
        })
    }

    /// The next line of the source, or the end. After a fault each later call answers that fault.
    pub fn next<S: Source>(&mut self, source: &mut S) -> Result<Line<'_>, LineFault>
        ensures* next { sem 𝓛 (Rests the_row self.entry (λ new. Next self.old new (S.left source.old) (S.left source.new) result)) }
        ensures cause { self.old.fault ≡ None → result ≡ Err LineFault.ReadFault → Rose (S.faults source.old) (S.faults source.new) }
        ensures later { S.faults source.old ≤ S.faults source.new }
        ensures kept { S.reads_to source.old source.new }
    {
        match self.advance(source) {
            Ok(Step::Short) => Ok(Line::Text(self.text())),
            Ok(Step::Skipped) => Ok(Line::Long),
            Ok(Step::Finished) => Ok(Line::End),
            Err(fault) => Err(fault),
        }
    }

    /// Whether a whole line is ahead: then the next one is given without a read of the source. It costs the same whatever is ahead.
    pub fn has_line(&self) -> bool
        ensures ahead { IsTrue result ↔ Contains self.now.store.ahead 10 }
        ensures bound { self.now.store.taken ≤ 2 ^ 32 }
    {
        self.ahead.has_line()
    }

    /// How many lines it gave, the long ones too.
    pub fn lines(&self) -> u64
        ensures count { result ≡ self.now.given }
        ensures bound { result ≤ 2 ^ 32 }
    {
        self.given
    }

    // Reads the next line, and says which it is.
    fn advance<S: Source>(&mut self, source: &mut S) -> Result<Step, LineFault>
        ensures next { MatchResult result
            (GivesStep self.old self.new (S.left source.old) (S.left source.new))
            (IsStopped self.old self.new (S.left source.old) (S.left source.new)) }
        ensures cause { self.old.fault ≡ None → result ≡ Err LineFault.ReadFault → Rose (S.faults source.old) (S.faults source.new) }
        ensures later { S.faults source.old ≤ S.faults source.new }
        ensures kept { S.reads_to source.old source.new }
    {
        if let Some(fault) = self.fault {
            return Err(fault);
        }
        match read_line(&mut self.ahead, &mut self.line, &mut self.given, source) {
            Ok(step) => Ok(step),
            Err(fault) => {
                self.fault = Some(fault);
                Err(fault)
            }
        }
    }

    // The bytes of the line that was read last.
    fn text(&self) -> &[u8]
        ensures { result.now ≡ self.now.text }
    {
        &self.line.bytes
    }
}
