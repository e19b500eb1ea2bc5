//! The kept picture: its history, the snapshot now, and the conflicts that are published of it, kept by increments.
#![tactic(auto)]

mod candidates;
mod change;
mod deciding;
mod effect;
mod enter;
mod entering;
mod held;
mod hits;
mod later;
mod laws;
mod picture;
mod places;
mod sizes;
mod usable;

pub use laws::{restoring_law, stale_law};
pub use mt_board::No;
pub use mt_memory::Memory;
pub use picture::Picture;
pub use sizes::{Sizes, sizes_of};
