//! Planned trajectories, the rows of a flight along its route second by second, as a strand; what a clearance
//! leaves of a flight, and where one that is due begins anew; and the refusals of a command.
#![tactic(auto)]

mod clearing;
mod climb;
mod fly;
mod gain;
mod judging;
mod leg;
mod predictor;
mod renewing;
mod second;
mod steady;

pub use clearing::{base_from, cleared};
pub use fly::fly_route;
pub use judging::{Looked, judge};
pub use predictor::predict;
pub use renewing::renewed;
