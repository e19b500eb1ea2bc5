//! Replies and entries written as lines of JSON, exactly.
//!
//! The text of a reply and of an entry are definitions of `specs/` over serde_json's own definition of a compact text.
#![tactic(auto)]

mod advice;
mod conflict;
mod entry;
mod escape;
mod flight_view;
mod hit;
mod illegal;
mod laws;
mod names;
mod number;
mod object;
mod pierced;
mod plan;
mod put_reply;
mod refused;
mod reply;
mod short_text;
mod texts;
mod truth;
mod verdict;
mod write;
mod written;

pub use laws::{no_memory_law, short_entries_law, short_replies_law};
pub use put_reply::NO_MEMORY;
pub use reply::{AdviceItem, AdviceList, DoneWord, Reply};
pub use texts::{write_entry, write_reply, write_short};
