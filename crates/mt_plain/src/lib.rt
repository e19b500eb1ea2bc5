//! The published conflicts from nothing: every two trajectories of different flights, tested one pair after the other.
#![tactic(auto)]

mod pairs;

pub use pairs::all_pairs;
