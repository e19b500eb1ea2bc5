ghost use Rattle.std.specs.Prelude.{◌≡◌, ◌≤◌, All, List, length};
ghost use Rattle.mt_base.specs.declared.command.Entry.{Entry};
ghost use Rattle.mt_base.specs.Complete.{IsComplete};
ghost use Rattle.mt_base.specs.History.{IsReplayable};
ghost use Rattle.mt_base.specs.Tables.{Setup};
ghost use Rattle.mt_write.specs.declared.reply.Reply.{Reply};
ghost use Rattle.mt_write.specs.declared.reply.Reply.TheVariants.{Memory as no_memory};
ghost use Rattle.mt_write.specs.Entry.{entry_text};
ghost use Rattle.mt_write.specs.Reply.{reply_text};
ghost use Rattle.mt_write.specs.Short.{HasShortRoute, IsShort};

use crate::put_reply::NO_MEMORY;

/// [`NO_MEMORY`](crate::NO_MEMORY) is the text of [`Reply::Memory`](crate::Reply::Memory).
#[tactic(auto, unfolding(json::proofs::OnLiterals::json_on_literals))]
pub fn no_memory_law()
    ensures { NO_MEMORY.now ≡ reply_text no_memory }
{}

/// A reply that carries no list of conflicts or entries has at most 65,536 bytes, so that [`write_short`](crate::write_short) writes it.
pub fn short_replies_law()
    ensures { (r : Reply) → IsShort r → length (reply_text r) ≤ 65536 }
{}

/// The text of a complete entry has at most 65,536 bytes where its route has at most 64 names. So has the text of each entry of a history that can
/// be replayed, where each is complete: none with a longer route is entered.
pub fn short_entries_law()
    ensures one { (e : Entry) → IsComplete e → HasShortRoute e.command → length (entry_text e) ≤ 65536 }
    ensures each { (setup : Setup) (h : List Entry) → All IsComplete h → IsReplayable setup h → All (λ e. length (entry_text e) ≤ 65536) h }
{}
