//! A history as text.
ghost use Rattle.std.specs.Prelude.{◌≡◌, ◌-◌, ◌≤◌, IfOk, take, drop, length};
ghost use Rattle.mt_io.specs.Lines.{lines_of};
ghost use Rattle.mt_history.specs.Printed.{AreReadAsEntries, printed};

use mt_base::Entry;
use mt_memory::Memory;
use mt_picture::Picture;
use mt_wire::write_entry;
use std::alloc::Global;

// The texts of entries, one after the other.
fn text_of(alloc: Global, entries: &[Entry]) -> Result<Vec<u8>, Memory>
    ensures { IfOk result (λ bytes. bytes.items ≡ printed entries.now) }
{
    let mut bytes = Vec::new(alloc);
    for entry in entries {
        let line = write_entry(alloc, entry)?;
        bytes.extend_from_slice(&line)?;
    }
    Ok(bytes)
}

/// The entries of a history from the place `from` up to the place `to`, without it, as text: a line for each, in order. Places are counted
/// from 0. It asks that `from` is at most `to`, and that no more than that many entries are asked for.
///
/// Whatever the picture, [`read_all`](crate::read_all) gives these entries of that text, and no others, unless memory is wanted.
pub fn print(alloc: Global, picture: &Picture, from: u64, to: u64) -> Result<Vec<u8>, Memory>
    requires order { from ≤ to }
    requires within { to ≤ length picture.now.history }
    ensures text { IfOk result (λ bytes. bytes.items ≡ printed (take (to - from) (drop from picture.now.history))) }
    ensures read_back { IfOk result (λ bytes. AreReadAsEntries (lines_of bytes.items) (take (to - from) (drop from picture.now.history))) }
{
    let entries = picture.entries();
    text_of(alloc, &entries[from as usize..to as usize])
}
