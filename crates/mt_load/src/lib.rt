//! The word `load`: a large input that is made from a number, run over a world with advice, acceptances and drops after it, and a line that
//! sums up what is left.
//!
//! The input has fixes, a type of aircraft, and flights whose routes, levels and times are drawn. The definitions are `specs/Load.antt`, of the
//! input `specs/Input.antt`, of the draws `specs/Draws.antt` and of the line `specs/Summary.antt`.
#![tactic(auto)]

mod again;
mod draws;
mod driving;
mod fixes;
mod laws;
mod loading;
mod making;
mod names;
mod plans;
mod summary;

pub use laws::{one_summary_law, right_input_law};
pub use loading::load;
pub use making::input;
pub use mt_memory::Memory;
pub use summary::{Summary, write_summary};
