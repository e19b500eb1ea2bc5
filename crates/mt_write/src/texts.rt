ghost use Rattle.std.specs.Prelude.{◌≡◌, ◌≤◌, IfOk, [], length, vec_capacity};
ghost use Rattle.mt_write.specs.Entry.{entry_text};
ghost use Rattle.mt_write.specs.Reply.{reply_text};

use crate::put_reply::put_reply;
use crate::reply::Reply;
use crate::write::put;
use crate::written::Written;
use mt_base::Entry;
use mt_memory::Memory;
use std::alloc::Global;

/// The bytes of most replies that tell no list, and of what stands beside the items of one.
const SHORT: usize = 128;

/// The most bytes of a conflict and its comma.
const CONFLICT: usize = 81;

/// The most bytes of a callsign, its quotes and its comma.
const CALLSIGN: usize = 10;

/// The most bytes of a passage through an area and its comma.
const PASSAGE: usize = 82;

/// The bytes of most entries and their comma.
const ENTRY: usize = 192;

/// The bytes of what is told of most flights.
const FLIGHT: usize = 256;

/// How many bytes a list has, its items having so many each.
fn list_size(count: usize, each: usize) -> usize {
    count.saturating_mul(each).saturating_add(SHORT)
}

/// How many bytes the text of a reply has at most, or about.
fn text_size(reply: &Reply) -> usize {
    match reply {
        Reply::List { conflicts, .. } => list_size(conflicts.items().len(), CONFLICT),
        Reply::Due { calls, .. } => list_size(calls.items().len(), CALLSIGN),
        Reply::Areas { areas, .. } => list_size(areas.items().len(), PASSAGE),
        Reply::Flight(_) => FLIGHT,
        Reply::History { entries, .. } => list_size(entries.items().len(), ENTRY),
        _ => SHORT,
    }
}

/// The text of a reply: one compact object, its keys in byte order, and 0x0A at its end.
pub fn write_reply(alloc: Global, reply: &Reply) -> Result<Vec<u8>, Memory>
    ensures { IfOk result (λ line. line.items ≡ reply_text reply.now) }
{
    let mut line = Vec::with_capacity(alloc, text_size(reply))?;
    put_reply(&mut line, reply)?;
    Ok(line)
}

/// Leaves the text of a reply in a room that is lent, and takes no memory.
pub fn write_short(reply: &Reply, room: &mut Vec<u8>)
    requires empty { room.old.items ≡ [] }
    requires fits { length (reply_text reply.now) ≤ 65536 }
    requires capacity { 65536 ≤ vec_capacity room.old }
    ensures text { room.new.items ≡ reply_text reply.now }
    ensures capacity { vec_capacity room.old ≤ vec_capacity room.new }
{
    put_reply(room, reply).unwrap()
}

/// The text of an entry: one compact object, its keys in byte order, and 0x0A at its end.
pub fn write_entry(alloc: Global, entry: &Entry) -> Result<Vec<u8>, Memory>
    ensures { IfOk result (λ line. line.items ≡ entry_text entry.now) }
{
    let mut line = Vec::with_capacity(alloc, ENTRY)?;
    entry.put(&mut line)?;
    put(&mut line, b"\n")?;
    Ok(line)
}
