//! Printed histories: the entries of a picture as lines of text, the entries that lines say, the picture that entries rebuild, and an entry
//! more put after a picture's history.
#![tactic(auto)]

mod following;
mod laws;
mod printing;
mod reading;
mod rebuilding;

pub use following::{FollowNo, follow_entry};
pub use laws::{history_printed_law, history_rebuilt_law};
pub use mt_memory::Memory;
pub use printing::print;
pub use reading::{BadHistory, read_all};
pub use rebuilding::{Wrong, rebuild};
