//! A line for a standby whose picture has begun: an entry to follow, or a line that asks what holds.
ghost use Rattle.std.specs.Prelude.{◌≡◌, [], IfOk, option_and_then};
ghost use Rattle.mt_json.specs.Shown.{members};
ghost use Rattle.mt_read.specs.Entry.{as_entry, held_in};
ghost use Rattle.mt_read.specs.Following.{IsReadyLine, as_asked, as_followed, as_line, feed, feed_members, reading_layout, reading_word_of};
ghost use Rattle.mt_read.specs.Line.{GivesReading, checked, keys_of, read_layout, word_text};
ghost use Rattle.mt_read.specs.Private.FieldReading.{ReadsRow};
ghost use Rattle.mt_read.specs.declared.origin.Origin.TheVariants as origin;
ghost use Rattle.mt_read.specs.declared.request.Sender.TheVariants.{Plain};

use crate::entry::held;
use crate::key::Fault;
use crate::object::{form, named, no_other, value_of};
use crate::origin::Origin;
use crate::plain::flight_line;
use crate::reading::FieldReading;
use crate::request::{LineNo, Request, Sender};
use mt_base::Entry;
use mt_board::Ask;
use mt_json::{Fields, Scratch};
use std::alloc::Global;

/// What a line asks of a standby whose picture has begun.
#[derive(Drop)]
pub enum FeedLine {
    /// To follow an entry.
    Followed(Entry),
    /// To tell what holds: the line is `list`, `check`, `flight` or `due`.
    Asked(Ask),
    /// To end.
    Ended,
}

/// The word of a line that is no entry.
#[derive(Clone, Copy)]
pub(crate) enum FeedWord {
    List,
    Check,
    Flight,
    Due,
    Bye,
}

// The command, no entry, that a text is the word of.
#[tactic(auto, unfolding(crate::specs::Following::reading_word_of))]
fn reading_word_of(text: &str) -> Option<FeedWord>
    ensures { result ≡ reading_word_of text.now }
{
    match text {
        "list" => Some(FeedWord::List),
        "check" => Some(FeedWord::Check),
        "flight" => Some(FeedWord::Flight),
        "due" => Some(FeedWord::Due),
        "bye" => Some(FeedWord::Bye),
        _ => None,
    }
}

// The command, no entry, that the line names.
fn word_in(fields: &Fields) -> Option<FeedWord>
    ensures { result ≡ option_and_then reading_word_of (word_text (members fields.now)) }
{
    let text = fields.word("do").ok()?;
    reading_word_of(text)
}

// The keys of such a line, with a space after each.
fn keys_of(word: FeedWord) -> &'static str
    ensures { result.now ≡ keys_of (origin.Line Plain) (reading_layout word).fields }
{
    match word {
        FeedWord::List | FeedWord::Check | FeedWord::Due | FeedWord::Bye => "do ",
        FeedWord::Flight => "do call sec ",
    }
}

// What such a line asks for.
fn answered(reading: &mut FieldReading, word: FeedWord) -> Request
    ensures { ReadsRow reading.old reading.new (reading_layout word) result }
{
    match word {
        FeedWord::List => Request::Ask(Ask::List),
        FeedWord::Check => Request::Ask(Ask::Check),
        FeedWord::Flight => flight_line(reading),
        FeedWord::Due => Request::Ask(Ask::Due),
        FeedWord::Bye => Request::Bye,
    }
}

// What the fields of such a line ask for, and who asks.
fn checked(fields: &Fields, word: FeedWord) -> Result<(u32, Request), Fault>
    ensures { result ≡ checked (origin.Line Plain) [] (reading_layout word) (members fields.now) }
{
    let mut reading = FieldReading::of(fields, Origin::Line(Sender::Plain));
    let asked = answered(&mut reading, word);
    let who = reading.actor();
    reading.faults()?;
    Ok((who, asked))
}

// What such a line asks for, if it has no other key.
fn asked(alloc: Global, fields: &Fields, word: FeedWord) -> Result<(u32, Request), LineNo>
    ensures { GivesReading result (read_layout (origin.Line Plain) [] (reading_layout word) (members fields.now)) }
{
    no_other(alloc, fields, keys_of(word))?;
    match checked(fields, word) {
        Ok(asked) => Ok(asked),
        Err(fault) => Err(named(alloc, fault)),
    }
}

// A request as a line for a standby: one that asks nothing ends.
fn line_of(request: &Request) -> FeedLine
    ensures { result ≡ as_line request.now }
{
    match request {
        Request::Ask(asked) => FeedLine::Asked(*asked),
        _ => FeedLine::Ended,
    }
}

// A line for a standby that is no entry.
fn read_asked(alloc: Global, fields: &Fields, word: FeedWord) -> Result<FeedLine, LineNo>
    ensures { GivesReading result (as_asked (read_layout (origin.Line Plain) [] (reading_layout word) (members fields.now))) }
{
    let (_, request) = asked(alloc, fields, word)?;
    Ok(line_of(&request))
}

// An entry that a standby is to follow.
fn read_followed(alloc: Global, fields: &Fields) -> Result<FeedLine, LineNo>
    ensures { GivesReading result (as_followed (as_entry (held_in (members fields.now)))) }
{
    let (who, command) = held(alloc, fields)?;
    Ok(FeedLine::Followed(Entry { who, command }))
}

// What an object's fields ask of a standby.
fn read_fields(alloc: Global, fields: &Fields) -> Result<FeedLine, LineNo>
    ensures { GivesReading result (feed_members (members fields.now)) }
{
    match word_in(fields) {
        Some(word) => read_asked(alloc, fields, word),
        None => read_followed(alloc, fields),
    }
}

// What a line asks of a standby.
fn read_bytes(alloc: Global, scratch: &mut Scratch, bytes: &[u8]) -> Result<FeedLine, LineNo>
    ensures { GivesReading result (feed bytes.now) }
{
    let value = value_of(alloc, scratch, bytes)?;
    let Some(fields) = Fields::of(&value) else {
        return Err(form(alloc, b""));
    };
    read_fields(alloc, &fields)
}

/// What a line asks of a standby whose picture has begun. The line is without its 0x0A.
///
/// A line whose `do` is `list`, `check`, `flight`, `due` or `bye` is read as in a session: it has no field `who`. Each other line is read as
/// the text of an entry, by the checks of [`read_entry`](crate::read_entry); so a line that sets the picture up names no command there. The
/// refusals are those of a line, in the same order. [`LineNo::Memory`] may come in place of any answer. A text with an escape goes into `scratch`,
/// which is kept from line to line. The numbers of an entry are within their bounds, and its clearance says from when it holds, so that no moment
/// fills that in.
pub fn read_feed(alloc: Global, scratch: &mut Scratch, bytes: &[u8]) -> Result<FeedLine, LineNo>
    ensures exact { GivesReading result (feed bytes.now) }
    ensures ready { IfOk result IsReadyLine }
{
    read_bytes(alloc, scratch, bytes)
}
