//! The tables of a picture: fixes with their positions, and types of aircraft with their bands, each found by its name.
#![tactic(auto)]

mod add_no;
mod bands;
mod route;
mod tables;

pub use add_no::AddNo;
pub use bands::band_at;
pub use tables::Tables;
