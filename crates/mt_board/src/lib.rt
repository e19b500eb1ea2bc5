//! The board: through it one seat of the shared picture reads, probes and changes it. Here stand what a seat knows and what each of its
//! calls is answered, as definitions, and the trait that a session and a worker are written over.
#![tactic(auto)]

mod advised;
mod ask;
mod board;
mod book;
mod laws;
mod no;
mod probed;

pub use advised::Advised;
pub use ask::{Answer, Ask};
pub use board::Board;
pub use book::Book;
pub use laws::seat_laws;
pub use no::No;
pub use probed::Probed;
