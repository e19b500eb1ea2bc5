ghost use Rattle.std.specs.Prelude.{◌≡◌, IfOk};
ghost use Rattle.mt_board.specs.Book.{empty_book};

use mt_base::Memory;
use mt_board::Book;
use mt_probe::{Probe, Snapshot};
use std::alloc::Global;

/// An actor of a script: the snapshot that it has taken, and its book of probes.
#[derive(Drop)]
pub struct Actor {
    /// The snapshot.
    pub taken: Snapshot,
    /// The book.
    pub book: Book<Probe>,
}

impl Actor {
    /// An actor that has taken a snapshot and probed nothing.
    pub fn make(alloc: Global, taken: &Snapshot) -> Result<Actor, Memory>
        ensures { IfOk result (λ actor. (actor.taken ≡ taken.now) × (actor.book ≡ empty_book)) }
    {
        Ok(Actor {
            taken: taken.share()?,
            book: Book::make(alloc)?,
        })
    }
}
