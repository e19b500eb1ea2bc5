//! A standby: a picture that follows a primary's printed history, entry by entry, and is asked meanwhile what holds.
#![tactic(auto)]

mod answering;
mod laws;
mod reading;
mod standby;
mod telling;

pub use laws::standby_law;
pub use mt_memory::Memory;
pub use standby::Standby;
