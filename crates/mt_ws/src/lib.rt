//! Lines over a WebSocket: a link whose messages are lines, a link that says by its first bytes whether it is one, a plain line session or neither,
//! and the door of loopback that gives such links to those who have spoken.
#![tactic(auto)]

mod any_door;
mod any_link;
mod beginning;
mod caller;
mod cause;
mod foyer;
mod front;
mod half_close;
mod opening;
mod origin;
mod pull;
mod put_back;
mod rehearsal;
mod sending;
mod ungiven;
mod unsent;
mod ws_link;

pub use any_door::AnyDoor;
pub use any_link::AnyLink;
pub use beginning::{Start, start_of};
pub use cause::{WsCause, WsNo};
pub use half_close::HalfClose;
pub use ws_link::WsLink;
