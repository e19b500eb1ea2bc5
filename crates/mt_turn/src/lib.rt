//! A turn: one value with one history, and seats that take it in turn, each knowing what it has seen and what it added.
//!
//! A thread with a seat calls `Turn::enter`, works on the value that it is lent, and calls `Turn::leave`. It adds one entry to the history,
//! of its seat's number, or none. The first seat splits others off, for other threads, and joins them again. When all are joined,
//! `Turn::close` gives the value back.
//!
//! `specs/Private/Turning.antt` has the rule that holds at every moment, `specs/Private/Steps.antt` what each step tells, and `specs/Lending.antt` what
//! contracts say of a turn.
#![tactic(auto)]

mod calls;
mod held;
mod plays;
mod recorded;
mod rule;
mod seat;
mod turn_table;
mod view;

pub use held::Held;
pub use recorded::Recorded;
pub use seat::{Seat, Turn};
pub use view::{Joined, Phase, View};
