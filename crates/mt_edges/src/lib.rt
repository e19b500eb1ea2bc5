//! Pairs that are kept, linked by index: found by either end and by their first second, and dropped in time that their number bounds.
#![tactic(auto)]

mod edge;
mod edges;
mod links;
mod table;

pub use edge::Edge;
pub use edges::Edges;
pub use mt_memory::Memory;
