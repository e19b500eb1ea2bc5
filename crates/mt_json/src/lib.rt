//! Fields of JSON objects, exactly by the value, and lines of JSON out of pairs.
//!
//! [`Value`] is what is read from bytes, with a kept [`Scratch`]: the value that serde_json reads, and its keys and texts are borrowed.
//! [`Fields`] looks into one that is an object: is a key there that isn't allowed, and what is the value
//! at a key, as a text, a truth value, a whole number in its bounds or a list. [`Builder`] takes pairs of a key and a value, and
//! writes them as one compact line, keys in byte order. What is read and written is said by serde_json's own definitions.
#![tactic(auto)]

mod bad;
mod builder;
mod fields;
mod number;
mod reading;
mod value;

pub use bad::{Bad, Extra};
pub use builder::Builder;
pub use fields::Fields;
pub use json::Scratch;
pub use mt_memory::Memory;
pub use reading::Unread;
pub use value::{Member, Value};
