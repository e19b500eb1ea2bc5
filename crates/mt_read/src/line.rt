//! A line read.
ghost use Rattle.std.specs.Prelude.{◌≡◌, IfOk};
ghost use Rattle.mt_json.specs.Shown.{members};
ghost use Rattle.mt_read.specs.Bounded.{IsBounded};
ghost use Rattle.mt_read.specs.Private.Field.{IsUnlessMemory};
ghost use Rattle.mt_read.specs.Private.FieldReading.{ReadsRow};
ghost use Rattle.mt_read.specs.Line.{GivesReading, checked, line, read_members, standing_rules, word_in};
ghost use Rattle.mt_read.specs.Table.{layout_of};
ghost use Rattle.mt_read.specs.declared.origin.Origin.TheVariants.{Line};

use crate::areas::area_line;
use crate::change::change_of;
use crate::clearance::{accept_line, probe_line};
use crate::object::{form, named, no_other, value_of};
use crate::origin::Origin;
use crate::plain::{advise_line, flight_line, hello_line, history_line};
use crate::reading::FieldReading;
use crate::request::{LineNo, Request, Sender};
use crate::setup::{rule_line, stand};
use crate::stop::Stop;
use crate::tables::{fix_line, type_line};
use crate::word::{Word, is_allowed, keys_of, word_of};
use mt_base::Rules;
use mt_board::Ask;
use mt_json::{Fields, Scratch};
use mt_memory::Memory;
use std::alloc::Global;

// The command that the line names, where the sender has it.
fn word_in(fields: &Fields, sender: Sender) -> Option<Word>
    ensures { result ≡ word_in sender (members fields.now) }
{
    let text = fields.word("do").ok()?;
    let word = word_of(text)?;
    if is_allowed(sender, word) {
        return Some(word);
    }
    None
}

// What the command's line asks for.
fn asked(alloc: Global, reading: &mut FieldReading, word: Word) -> Result<Request, Memory>
    ensures { IfOk result (ReadsRow reading.old reading.new (layout_of word)) }
{
    match word {
        Word::Fix => Ok(fix_line(reading)),
        Word::TypeLine => type_line(alloc, reading),
        Word::Area => area_line(alloc, reading),
        Word::Rule => Ok(rule_line(reading)),
        Word::Begin => Ok(Request::Begin),
        Word::Take => Ok(Request::Take),
        Word::Areas => Ok(Request::Areas),
        Word::Change(change) => Ok(Request::Change(change_of(alloc, reading, change)?)),
        Word::Probe => Ok(probe_line(reading)),
        Word::Accept => Ok(accept_line(reading)),
        Word::Advise => Ok(advise_line(reading)),
        Word::Hello => Ok(hello_line(reading)),
        Word::List => Ok(Request::Ask(Ask::List)),
        Word::Check => Ok(Request::Ask(Ask::Check)),
        Word::Due => Ok(Request::Ask(Ask::Due)),
        Word::Flight => Ok(flight_line(reading)),
        Word::History => Ok(history_line(reading)),
        Word::Settle => Ok(Request::Settle),
        Word::Bye => Ok(Request::Bye),
    }
}

// What the command's line asks for, and who asks.
fn checked(
    alloc: Global,
    fields: &Fields,
    sender: Sender,
    rules: &Rules,
    word: Word,
) -> Result<(u32, Request), Stop>
    ensures { IsUnlessMemory result (checked (Line sender) (standing_rules word rules.now (members fields.now)) (layout_of word) (members fields.now)) }
{
    let mut reading = FieldReading::of(fields, Origin::Line(sender));
    let asked = asked(alloc, &mut reading, word)?;
    let who = reading.actor();
    stand(&mut reading, &asked, rules);
    reading.faults()?;
    Ok((who, asked))
}

// What an object's fields are read as.
fn read_fields(
    alloc: Global,
    fields: &Fields,
    sender: Sender,
    rules: &Rules,
) -> Result<(u32, Request), LineNo>
    ensures { GivesReading result (read_members sender rules.now (members fields.now)) }
{
    let Some(word) = word_in(fields, sender) else {
        return Err(form(alloc, b"do"));
    };
    no_other(alloc, fields, keys_of(sender, word))?;
    match checked(alloc, fields, sender, rules, word) {
        Ok(asked) => Ok(asked),
        Err(Stop::Fault(fault)) => Err(named(alloc, fault)),
        Err(Stop::Memory) => Err(LineNo::Memory),
    }
}

// What a line is read as.
fn read_bytes(
    alloc: Global,
    scratch: &mut Scratch,
    bytes: &[u8],
    sender: Sender,
    rules: &Rules,
) -> Result<(u32, Request), LineNo>
    ensures { GivesReading result (line sender rules.now bytes.now) }
{
    let value = value_of(alloc, scratch, bytes)?;
    let Some(fields) = Fields::of(&value) else {
        return Err(form(alloc, b""));
    };
    read_fields(alloc, &fields, sender, rules)
}

/// What the line asks for, and who asks; 0 where it doesn't say. The line is without its 0x0A, and `rules` are those that stand.
///
/// The refusal is the first of these, in this order. [`LineNo::Json`] where serde_json reads no value from the bytes. [`LineNo::Form`]
/// with the empty name where the value isn't an object; with `do` where that member isn't the word of a command that the sender has;
/// with the least key, in byte order, that isn't a field of the command; with the first field that is missing or of another kind.
/// [`LineNo::Range`] with the first field whose number, or list of bands, is outside its bounds. In a script each line may have the field
/// `who`, checked after the others' kinds and again after the others' bounds. For `rule`, last, the rules as they would then stand are
/// checked. [`LineNo::Memory`] may come in place of any answer. A text with an escape goes into `scratch`, which is kept from line to line.
pub fn read_line(
    alloc: Global,
    scratch: &mut Scratch,
    bytes: &[u8],
    sender: Sender,
    rules: &Rules,
) -> Result<(u32, Request), LineNo>
    ensures exact { GivesReading result (line sender rules.now bytes.now) }
    ensures bounded { IfOk result (IsBounded rules.now) }
{
    read_bytes(alloc, scratch, bytes, sender, rules)
}
