//! The cells that a trajectory meets, and for which seconds; its slices of 128 seconds, with heights, two of which make a slice of 256 that the
//! cells are those of; and that two trajectories which lose separation meet one cell in that second.
#![tactic(auto)]

mod bounding_box;
mod heights;
mod laws;
mod layer;
mod sliced;
mod stays;
mod walk;
mod window;

pub use bounding_box::Extent;
pub use laws::{misses_none_law, touching_is_near_law};
pub use layer::Layer;
pub use mt_memory::Memory;
pub use sliced::{SLICE, Slice, Slices};
pub use stays::{Cover, Stay};
pub use walk::{cover, slices, slices_until};
pub use window::CLOCK_WINDOW;
