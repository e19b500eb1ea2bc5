//! The lines that change nothing: `flight`, `history`, `advise` and `hello`.
ghost use Rattle.mt_read.specs.Private.FieldReading.{ReadsRow};
ghost use Rattle.mt_read.specs.Table.{layout_of};
ghost use Rattle.mt_read.specs.declared.word.Word.TheVariants as word;

use crate::key::Key;
use crate::reading::FieldReading;
use crate::request::Request;
use mt_base::HORIZON;
use mt_board::Ask;

/// `flight`.
pub(crate) fn flight_line(reading: &mut FieldReading) -> Request
    ensures { ReadsRow reading.old reading.new (layout_of word.Flight) result }
{
    let call = reading.callsign(Key::Call);
    let sec = reading.count_or_none(Key::Sec, HORIZON);
    Request::Ask(Ask::Flight { call, sec })
}

/// `history`.
pub(crate) fn history_line(reading: &mut FieldReading) -> Request
    ensures { ReadsRow reading.old reading.new (layout_of word.History) result }
{
    let from = reading.count(Key::From, 0, 4_194_304);
    let to = reading.count(Key::To, from, from + 64);
    Request::Ask(Ask::History {
        from: u64::from(from),
        to: u64::from(to),
    })
}

/// `advise`.
pub(crate) fn advise_line(reading: &mut FieldReading) -> Request
    ensures { ReadsRow reading.old reading.new (layout_of word.Advise) result }
{
    let call = reading.callsign(Key::Call);
    Request::Advise { call }
}

/// `hello`.
pub(crate) fn hello_line(reading: &mut FieldReading) -> Request
    ensures { ReadsRow reading.old reading.new (layout_of word.Hello) result }
{
    let role = reading.role(Key::Role);
    Request::Hello(role)
}
