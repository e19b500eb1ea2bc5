//! Lines of JSON read as requests, and texts of entries read as entries, exactly.
//!
//! What a line and an entry are read as are definitions of `specs/` over serde_json's own definition of reading. The table of commands is
//! `specs/Table.antt`.
#![tactic(auto)]

mod areas;
mod bands;
mod change;
mod clearance;
mod corners;
mod entry;
mod feed;
mod field;
mod following;
mod key;
mod line;
mod marks;
mod object;
mod origin;
mod plain;
mod plan;
mod reading;
mod request;
mod route;
mod setup;
mod stop;
mod tables;
mod word;

pub use entry::read_entry;
pub use following::{FeedLine, read_feed};
pub use line::read_line;
pub use mt_json::Scratch;
pub use request::{LineNo, Request, RuleSet, Sender};
