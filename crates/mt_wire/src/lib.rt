//! The protocol of lines whole: what `mt_read` reads and `mt_write` writes, and that the one reads what the other wrote.
#![tactic(auto)]

mod laws;

pub use laws::{entry_back_law, read_back_law};
pub use mt_base::{FieldName, Role};
pub use mt_read::{
    FeedLine, LineNo, Request, RuleSet, Scratch, Sender, read_entry, read_feed, read_line,
};
pub use mt_write::{
    AdviceItem, AdviceList, DoneWord, NO_MEMORY, Reply, no_memory_law, short_replies_law,
    write_entry, write_reply, write_short,
};
