//! Advice: which clearances are tried for a flight.
#![tactic(auto)]

mod directs;
mod levels;
mod listing;

pub use listing::candidates;
