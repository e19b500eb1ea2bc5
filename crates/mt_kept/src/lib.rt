//! The conflicts of some trajectories, kept while these change: what stands in places, the pairs of places that lose separation over all
//! seconds, what those of them show whose span straddles an edge of the window, and what is published. It knows nothing of commands.
#![tactic(auto)]

mod changes;
mod conflict_list;
mod finds;
mod kept;
mod later;
mod laws;
mod lists;
mod merging;
mod open_pair;
mod renewing;
mod showing;
mod stale;

pub use changes::PlaceChange;
pub use finds::{Candidate, Knowledge};
pub use kept::Kept;
pub use laws::finds_laws;
pub use mt_edges::Edge;
pub use mt_memory::Memory;
pub use open_pair::{OpenPair, is_open};
