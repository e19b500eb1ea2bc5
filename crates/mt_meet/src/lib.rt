//! Which of some trajectories are so near a new one, in place, height and time, that they may lose separation with it: those whose slices meet
//! its slices in a common second.
//!
//! What never loses separation with it need not be tested, and what is tested is near by the definition of cells.
#![tactic(auto)]

mod boxes;
mod heights;
mod laws;
mod marked_items;
mod marked_parts;
mod meeting;
mod search;
mod steps;
mod subject;
mod table;
mod windows;

pub use heights::lie_apart;
pub use laws::{losing_meet_law, meeting_is_near_law};
pub use mt_memory::Memory;
pub use search::Search;
pub use subject::Subject;
pub use table::{Met, SliceTable};
