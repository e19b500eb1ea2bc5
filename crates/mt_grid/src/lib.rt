//! A grid of cells: which items count to each cell, and for which seconds; so which items are near a trajectory.
#![tactic(auto)]

mod grid;
mod laws;
mod marks;
mod nearness;
mod placed;

pub use grid::Grid;
pub use laws::grid_laws;
pub use mt_memory::Memory;
pub use placed::Placed;
