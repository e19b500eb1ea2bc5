//! Renewals that are handed on: jobs, where they go and where they come from, and the worker that does them.
#![tactic(auto)]

mod channel;
mod inbox;
mod job;
mod outbox;
mod working;

pub use channel::{JobReceiver, JobSender, jobs};
pub use inbox::{Inbox, MemInbox};
pub use job::Job;
pub use outbox::{MemOutbox, NoOutbox, Outbox};
pub use working::work;
