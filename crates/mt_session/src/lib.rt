//! One session: the lines of a link answered one by one, over a board.
//!
//! What a whole session means is `IsSession` of `specs/Run.antt`: the clause of `session`, and what the promise of a thread that serves one
//! can cite.
#![tactic(auto)]

mod accepting;
mod advising;
mod answering;
mod following;
mod outcome;
mod over_link;
mod probing;
mod serving;
mod settling;
mod telling;

pub use outcome::Outcome;
pub use over_link::session;
