//! A desk: one kept picture behind a turn, for many threads. A thread with a seat of the desk takes it in its hand, and the hand is a board:
//! through it the thread reads, probes and changes the one picture.
//!
//! The turn is held while a snapshot is taken, while what is kept is copied, and while a command is entered. What takes longer is done with the
//! turn not held, on the snapshot: preparing a command, trying a clearance, advice, and testing all pairs anew.
#![tactic(auto)]

mod board;
mod desk;
mod hand;
mod home;
mod legal;
mod reading;
mod turns;

pub use desk::{Desk, Seat};
pub use hand::Hand;
pub use home::{Fixed, Home};
pub use legal::Legal;
pub use mt_memory::Memory;
