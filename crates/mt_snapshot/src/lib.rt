//! What is told of a snapshot, with no lock held: the flights for which a new trajectory is due, what is to be seen of a flight, all trajectories,
//! the published conflicts from nothing; and advice, the clearances of a flight that are free there.
#![tactic(auto)]

mod advising;
mod asking;
mod checking;
mod laws;
mod order;
mod renewals;
mod telling;
mod trying;

pub use advising::advise;
pub use checking::{check, roster_of};
pub use laws::same_advice_law;
pub use renewals::due;
pub use telling::view_of_call;
