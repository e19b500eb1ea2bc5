//! The picture as plain lists: what is decided of a command, what an entry leaves, and what is told of it. Each answer is computed from
//! nothing but the state, so that a kept picture can be compared with it.
#![tactic(auto)]

mod advising;
mod aiming;
mod decision;
mod due;
mod effect;
mod finding;
mod laws;
mod plain;
mod strands;
mod view;
mod what_if;

pub use advising::plain_advice;
pub use decision::decide;
pub use laws::{one_advice_law, one_hits_law};
pub use plain::Plain;
pub use what_if::hits;
