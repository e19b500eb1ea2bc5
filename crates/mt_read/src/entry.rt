//! The text of an entry read.
ghost use Rattle.std.specs.Prelude.{◌≡◌, ℕ, [], IfOk, option_and_then};
ghost use Rattle.mt_base.specs.Bounds.{IsBoundedCommand};
ghost use Rattle.mt_base.specs.declared.command.Entry.{Entry as Kept};
ghost use Rattle.mt_base.specs.Decision.{filled};
ghost use Rattle.mt_json.specs.Shown.{members};
ghost use Rattle.mt_read.specs.Entry.{entry, held_in};
ghost use Rattle.mt_read.specs.Private.Field.{IsUnlessMemory};
ghost use Rattle.mt_read.specs.Private.FieldReading.{ReadsRow};
ghost use Rattle.mt_read.specs.Line.{GivesReading, checked, decoded, read_value, word_text};
ghost use Rattle.mt_read.specs.Table.{entry_layout};
ghost use Rattle.mt_read.specs.Words.{entry_word_of};
ghost use Rattle.mt_read.specs.declared.origin.Origin.TheVariants as origin;

use crate::change::change_of;
use crate::clearance::accepted_entry;
use crate::object::{form, named, no_other, value_of};
use crate::origin::Origin;
use crate::reading::FieldReading;
use crate::request::LineNo;
use crate::stop::Stop;
use crate::word::{EntryWord, entry_keys, entry_word_of};
use mt_base::{Command, Entry};
use mt_json::{Fields, Scratch};
use mt_memory::Memory;
use std::alloc::Global;

// The command that the entry names.
fn word_in(fields: &Fields) -> Option<EntryWord>
    ensures { result ≡ option_and_then entry_word_of (word_text (members fields.now)) }
{
    let text = fields.word("do").ok()?;
    entry_word_of(text)
}

// What a command's entry holds.
fn entered(alloc: Global, reading: &mut FieldReading, word: EntryWord) -> Result<Command, Memory>
    ensures { IfOk result (ReadsRow reading.old reading.new (entry_layout word)) }
{
    match word {
        EntryWord::Change(change) => change_of(alloc, reading, change),
        EntryWord::Accepted => Ok(accepted_entry(reading)),
    }
}

// What the fields of a command's entry hold, and who asked for it.
fn checked(alloc: Global, fields: &Fields, word: EntryWord) -> Result<(u32, Command), Stop>
    ensures { IsUnlessMemory result (checked origin.Entry [] (entry_layout word) (members fields.now)) }
{
    let mut reading = FieldReading::of(fields, Origin::Entry);
    let command = entered(alloc, &mut reading, word)?;
    let who = reading.actor();
    reading.faults()?;
    Ok((who, command))
}

/// The command that an object's fields hold, and who asked for it.
pub(crate) fn held(alloc: Global, fields: &Fields) -> Result<(u32, Command), LineNo>
    ensures { GivesReading result (held_in (members fields.now)) }
{
    let Some(word) = word_in(fields) else {
        return Err(form(alloc, b"do"));
    };
    no_other(alloc, fields, entry_keys(word))?;
    match checked(alloc, fields, word) {
        Ok(held) => Ok(held),
        Err(Stop::Fault(fault)) => Err(named(alloc, fault)),
        Err(Stop::Memory) => Err(LineNo::Memory),
    }
}

// What an entry's text holds.
fn read_bytes(alloc: Global, scratch: &mut Scratch, bytes: &[u8]) -> Result<(u32, Command), LineNo>
    ensures { GivesReading result (read_value held_in (decoded bytes.now)) }
{
    let value = value_of(alloc, scratch, bytes)?;
    let Some(fields) = Fields::of(&value) else {
        return Err(form(alloc, b""));
    };
    held(alloc, &fields)
}

/// The entry that a text says, with or without its 0x0A.
///
/// It is one object with all the fields of the entry's command, those with a default too, and `who`, from 0 to 4,294,967,295. An
/// acceptance has the fields of a clearance and `v`, the version of its probe, from 0 to 4,194,304. The refusals are those of a line, in
/// the same order; `v` is checked after the clearance, and `who` last, in both passes. [`LineNo::Memory`] may come in place of any answer.
/// A text with an escape goes into `scratch`, which is kept from entry to entry.
/// The numbers of what is read are within their bounds, and its clearance says from when it holds, so that no moment fills that in.
pub fn read_entry(alloc: Global, scratch: &mut Scratch, bytes: &[u8]) -> Result<Entry, LineNo>
    ensures exact { GivesReading result (entry bytes.now) }
    ensures bounded { IfOk result (λ (e : Kept). IsBoundedCommand e.command) }
    ensures timed { IfOk result (λ (e : Kept). (now : ℕ) → filled now e.command ≡ e.command) }
{
    let (who, command) = read_bytes(alloc, scratch, bytes)?;
    Ok(Entry { who, command })
}
