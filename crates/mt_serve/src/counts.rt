//! Sessions counted by how they ended.
ghost use Rattle.std.specs.Prelude.{◌≡◌, ◌<◌, ◌≤◌, ◌^◌};
ghost use Rattle.mt_serve.specs.Private.Summary.{no_counts, with_outcome};

use mt_session::Outcome;

/// How many sessions there were, how many a fault of their link ended, and how many found no memory.
#[derive(Clone, Copy, Debug, PartialEq, Eq)]
pub struct Counts {
    /// All of them.
    pub sessions: u64,
    /// Those that a failed read or write ended, or the end of the bytes that a link may give.
    pub faulted: u64,
    /// Those that wanted memory before their first line.
    pub starved: u64,
}

impl Counts {
    /// No session.
    pub(crate) fn none() -> Counts
        ensures { result ≡ no_counts }
    {
        Counts {
            sessions: 0,
            faulted: 0,
            starved: 0,
        }
    }

    /// One session more, of that outcome.
    pub(crate) fn add(&mut self, outcome: Outcome)
        requires room { self.old.sessions < 2 ^ 32 }
        requires parts { (self.old.faulted ≤ self.old.sessions) × (self.old.starved ≤ self.old.sessions) }
        ensures { self.new ≡ with_outcome outcome self.old }
    {
        self.sessions += 1;
        match outcome {
            Outcome::Ended => {}
            Outcome::ReadFault | Outcome::WriteFault | Outcome::Spent => self.faulted += 1,
            Outcome::Memory => self.starved += 1,
        }
    }
}
