//! Plain types of the picture: names, rows, flights, conflicts and rules; and, in `specs/`, the definitions that all crates cite.
//!
//! Units are whole: 1/3600 of a nautical mile horizontally, 1/60 of a foot vertically, and seconds.
#![tactic(auto)]

mod area;
mod band;
mod callsign;
mod checks;
mod clearance;
mod command;
mod conflict;
mod field_name;
mod fix_name;
mod flight;
mod hit;
mod laws;
mod list;
mod name;
mod named;
mod place;
mod role;
mod route;
mod row;
mod rules;
mod steps;
mod tally;
mod type_name;
mod verdict;
mod words;

pub use area::{Area, Corners, Pierced, Pierces};
pub use band::{Band, Bands};
pub use callsign::{Calls, Callsign};
pub use checks::must;
pub use clearance::{Aim, Clearance, Clearances};
pub use command::{Command, Entered, Entries, Entry, Refusal};
pub use conflict::{Conflict, Conflicts, Kind};
pub use field_name::FieldName;
pub use fix_name::FixName;
pub use flight::{Base, Course, FlightView, Mark, Path, Record, Report, Straight, Tent};
pub use hit::{Hit, Hits};
pub use laws::{history_laws, one_published_list_law};
pub use list::Listed;
pub use mt_memory::Memory;
pub use name::Name;
pub use place::{Leg, Place, Point};
pub use role::Role;
pub use route::{Route, RouteNo};
pub use row::{HORIZON, Row, Second, WINDOW};
pub use rules::{RuleName, Rules};
pub use steps::Steps;
pub use tally::Tally;
pub use type_name::TypeName;
pub use verdict::Verdict;
pub use words::Words;
