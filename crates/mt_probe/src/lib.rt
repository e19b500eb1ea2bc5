//! Snapshots of a picture, and what is prepared and tried on one, with no lock held.
#![tactic(auto)]

mod altering;
mod finding;
mod flight;
mod hitting;
mod index;
mod laws;
mod narrow;
mod nearness;
mod placing;
mod prep;
mod preparing;
mod probe;
mod snapshot;
mod trying;

pub use altering::{Altered, altered_flight};
pub use finding::{Finds, Found};
pub use flight::{Flight, Made};
pub use laws::filing_order_law;
pub use mt_memory::Memory;
pub use narrow::narrowed;
pub use prep::Prep;
pub use preparing::{judge_on, kind_made, left_of, makes_strand, prepare, slot_named, strand_of};
pub use probe::Probe;
pub use snapshot::Snapshot;
pub use trying::{probe_if_free, what_if};
