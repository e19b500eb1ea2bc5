//! What an entry does to one flight: what a plan files, what any other command alters of a course, and the trajectory that a path flies.
#![tactic(auto)]

mod altering;
mod flying;
mod planning;

pub use altering::{Alteration, alteration_by};
pub use flying::strand_of_path;
pub use mt_memory::Memory;
pub use planning::planned_course;
