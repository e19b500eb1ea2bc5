//! The process's standard streams as a source and a sink. They tell no content.
ghost use Rattle.std.specs.Prelude.{◌≡◌, None};

use crate::sink::Sink;
use crate::source::{Failed, Source};
use std::io::{ErrorKind, Read, Stdin, Stdout, Write};

/// Standard input, with the count of the errors that it gave.
#[derive(Drop)]
pub struct StdIn {
    stream: Stdin,
    faults: u64,
}

/// Standard output, with the count of the errors that it gave. A write that took nothing counts as one.
#[derive(Drop)]
pub struct StdOut {
    stream: Stdout,
    faults: u64,
}

impl StdIn {
    /// Standard input, with no fault counted.
    pub fn of(stream: Stdin) -> StdIn
        ensures { ⟦<StdIn as Source>⟧.faults result ≡ 0 }
    {
        StdIn { stream, faults: 0 }
    }
}

impl StdOut {
    /// Standard output, with no fault counted.
    pub fn of(stream: Stdout) -> StdOut
        ensures { ⟦<StdOut as Sink>⟧.faults result ≡ 0 }
    {
        StdOut { stream, faults: 0 }
    }
}

impl Source for StdIn {
    ghost left = { λ _. None };

    ghost faults = { λ s. s.faults };

    ghost reads_to = { λ a b. Unit {0} };

    fn read_faults(&self) -> u64 {
        self.faults
    }

    fn read_some(&mut self, buf: &mut [u8]) -> Result<usize, Failed> {
        for _ in 0..u64::MAX {
            match self.stream.read(buf) {
                Ok(count) => return Ok(count),
                Err(error) if error.kind() == ErrorKind::Interrupted => {}
                Err(_) => break,
            }
        }
        self.faults = self.faults.saturating_add(1);
        Err(Failed)
    }

    ghost reads_to_itself = { λ s. tt };

    ghost reads_on = { λ a b c ab bc. tt };
}

impl Sink for StdOut {
    ghost held = { λ _. None };

    ghost faults = { λ s. s.faults };

    ghost writes_to = { λ a b. Unit {0} };

    fn write_faults(&self) -> u64 {
        self.faults
    }

    fn write_some(&mut self, piece: &[u8]) -> Result<usize, Failed> {
        for _ in 0..u64::MAX {
            match self.stream.write(piece) {
                Ok(0) => break,
                Ok(count) => return Ok(count),
                Err(error) if error.kind() == ErrorKind::Interrupted => {}
                Err(_) => break,
            }
        }
        self.faults = self.faults.saturating_add(1);
        Err(Failed)
    }

    ghost writes_to_itself = { λ s. tt };

    ghost writes_on = { λ a b c ab bc. tt };
}
