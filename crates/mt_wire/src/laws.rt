ghost use Rattle.std.specs.Prelude.{◌≡◌, Some, Ok};
ghost use Rattle.serde_json.specs.Read.{read};
ghost use Rattle.serde_json.specs.Written.{compact_text};
ghost use Rattle.mt_base.specs.declared.command.Entry.{Entry};
ghost use Rattle.mt_base.specs.Complete.{IsComplete};
ghost use Rattle.mt_read.specs.Entry.{entry};
ghost use Rattle.mt_write.specs.declared.reply.Reply.{Reply};
ghost use Rattle.mt_write.specs.Entry.{entry_text, entry_value};
ghost use Rattle.mt_write.specs.Reply.{reply_value};
ghost use Rattle.mt_wire.specs.Held.{HoldsWhole};

/// What stands before the 0x0A of a reply's or an entry's text is read by serde_json as the object that the reply or entry says, where its
/// numbers are held by 64 bits.
pub fn read_back_law()
    ensures replies { (r : Reply) → HoldsWhole (reply_value r) → read (compact_text (reply_value r)) ≡ Some (reply_value r) }
    ensures entries { (e : Entry) → HoldsWhole (entry_value e) → read (compact_text (entry_value e)) ≡ Some (entry_value e) }
{}

/// The text that [`write_entry`](crate::write_entry) writes of an entry is what [`read_entry`](crate::read_entry) reads as that entry, with
/// its 0x0A and without. So no other refusal of it comes than for want of memory.
pub fn entry_back_law()
    ensures line { (e : Entry) → IsComplete e → entry (entry_text e) ≡ Ok e }
    ensures text { (e : Entry) → IsComplete e → entry (compact_text (entry_value e)) ≡ Ok e }
{}
