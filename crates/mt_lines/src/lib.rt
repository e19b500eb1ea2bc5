//! Lines answered one by one: what a run of them means, whatever answers them, what is answered as replies, replies on their
//! way out, and lines that tell numbers.
//!
//! The definitions of `specs/` speak of any state, any reply, any way in which a line is replied to and any work that follows a reply.
//! A script and a session are instances; their runs are put together by the lemmas of `proofs/`, which speak of the same.
#![tactic(auto)]

mod ending;
mod given_text;
mod numbers;
mod outgoing;
mod telling;
mod waiting;

pub use ending::Ending;
pub use numbers::put_number;
pub use outgoing::Outgoing;
pub use telling::{refused, reply_to_change, told, unread};
