//! The words of the command line, read as what the program is to do.
#![tactic(auto)]

mod command_option;
mod loading;
mod number;
mod serving;
mod table;
mod task;

pub use table::read_words;
pub use task::{Task, Usage};
