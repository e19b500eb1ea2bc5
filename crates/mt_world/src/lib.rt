//! A script: the requests of its actors, from the first one on. They set up fixes, types, restricted areas and rules, begin the picture, and are
//! served by its world from then on: sixteen actors, each with a snapshot that it has taken and a book of probes, on one kept picture.
#![tactic(auto)]

mod actor;
mod advising;
mod centre;
mod changing;
mod laws;
mod passing;
mod probing;
mod reading;
mod script;
mod setting;
mod settling;
mod world;

pub use laws::one_answer_law;
pub use mt_memory::Memory;
pub use reading::{read, tell};
pub use script::Script;
pub use world::World;
