//! Lists in shared pages: where a place is replaced, the old list stays, and what the two have in common is there once.
#![tactic(auto)]

mod page;
mod paged;

pub use mt_memory::Memory;
pub use paged::Paged;
