//! The top call: a script of lines in, or a primary's history, and their replies out; or a large input that is made and summed up.
#![tactic(auto)]

mod answering;
mod following;
mod laws;
mod lines;
mod load;
mod opening;
mod serving;
mod status;
mod top_call;

pub use laws::{areas_law, one_reply_law, served_law, standby_run_law};
pub use status::Status;
pub use top_call::run;
