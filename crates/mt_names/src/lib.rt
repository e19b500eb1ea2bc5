//! The callsigns of a picture, each with the place of its flight, in rows that lists share.
#![tactic(auto)]

mod names;
mod renaming;
mod row;

pub use mt_memory::Memory;
pub use names::{Named, Names};
pub use renaming::renamed;
