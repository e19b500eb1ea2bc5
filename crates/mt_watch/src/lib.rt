//! Reports of planned flights, compared with the trajectories that were predicted.
#![tactic(auto)]

mod vector;
mod watching;

pub use watching::verdict;
