//! The book of what was probed: the last values, under numbers of their own.
ghost use Rattle.std.specs.Prelude.{◌≡◌, ◌<◌, ◌≤◌, ◌+◌, ◌↔◌, IfOk, is_some, option_copied, true};
ghost use Rattle.mt_board.specs.Book.{empty_book, probe_at, with_all, with_probe};

use circular_buffer::HeapCircularBuffer;
use mt_base::Memory;
use std::alloc::Global;
use std::marker::Model;

/// How many values a book keeps.
const KEPT: usize = 64;

/// A book: it gives each value that is put in the next number, from 1, and keeps the last 64.
#[derive(Drop)]
pub struct Book<P> {
    last: HeapCircularBuffer<P>,
    count: u64,
}

impl<P> Model for Book<P> {
    ghost use Rattle.std.specs.Prelude.{◌≡◌, length, min};
    ghost use Rattle.mt_board.specs.Book.{Book};
    ghost use Rattle.mt_board.specs.Private.Book.{book_code};

    ghost Value = { Book P };

    ghost coded = { book_code P.code };

    ghost view = { λ b. record { count = b.count; last = b.last.items } };

    ghost invariant = { λ b. (b.last.capacity ≡ 64) × (length b.last.items ≡ min b.count 64) };
}

impl<P: Drop> Book<P> {
    /// The empty book. It takes all the memory that the book ever needs.
    pub fn make(alloc: Global) -> Result<Book<P>, Memory>
        ensures { IfOk result (λ book. book ≡ empty_book) }
    {
        Ok(Book {
            last: HeapCircularBuffer::with_capacity(alloc, KEPT)?,
            count: 0,
        })
    }

    /// How many values were ever put in.
    pub fn count(&self) -> u64
        ensures { result ≡ self.now.count }
    {
        self.count
    }

    /// Puts a value in and answers its number. Where 64 are kept, the oldest goes.
    pub fn put(&mut self, probe: P) -> u64
        ensures number { result ≡ self.new.count }
        ensures kept { self.new ≡ with_probe self.old probe }
    {
        self.last.push_back(probe);
        self.count = self.count.saturating_add(1);
        self.count
    }

    /// Puts values in, in order.
    pub fn put_all(&mut self, probes: Vec<P>)
        ensures { self.new ≡ with_all self.old probes.items }
    {
        for probe in probes {
            self.put(probe);
        }
    }

    /// The value with that number; `None` exactly where the number is none of the last 64 that were given.
    pub fn get(&self, number: u64) -> Option<&P>
        ensures value { option_copied result ≡ probe_at self.now number }
        ensures kept { (is_some result ≡ true) ↔ ((1 ≤ number) × (number ≤ self.now.count) × (self.now.count < number + 64)) }
    {
        let newer = self.count.checked_sub(number)?;
        self.last.nth_back(newer as usize)
    }
}
