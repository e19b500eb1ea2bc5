//! Many links served beside each other: a session for each, and workers, on threads of their own over one picture.
//!
//! What stands when all are over is `HasServedWhole` of `specs/Summary.antt`: one legal history that ties every link.
#![tactic(auto)]

mod accepting;
mod closing;
mod counts;
mod room;
mod seating;
mod service;
mod serving;
mod sitting;
mod worked;
mod working;

pub use closing::{Closing, put_closing, sum_up};
pub use counts::Counts;
pub use mt_memory::Memory;
pub use service::{Served, serve};
