//! What is told of a flight, as a value of JSON.
ghost use Rattle.mt_write.specs.Flight.{or_null, row_value, tent_value};
ghost use Rattle.mt_write.specs.Private.Puts.{Puts};
ghost use Rattle.mt_write.specs.Reply.{reply_text};
ghost use Rattle.mt_write.specs.declared.reply.Reply.TheVariants.{Flight};

use crate::object::{Datum, put_array, put_line};
use crate::write::{put, put_all};
use crate::written::Written;
use itoa::Buffer;
use mt_base::{FlightView, Row, Tent};
use mt_memory::Memory;

impl Written for Row {
    ghost value = { row_value };

    fn put(&self, out: &mut Vec<u8>) -> Result<(), Memory> {
        put_array(
            out,
            &[
                self.x,
                self.y,
                self.z,
                self.r,
                self.w,
                self.vx,
                self.vy,
                self.vz,
                self.gr,
                self.gw,
                i64::from(self.leg),
            ],
        )
    }
}

impl Written for Tent {
    ghost value = { tent_value };

    fn put(&self, out: &mut Vec<u8>) -> Result<(), Memory> {
        let mut level = Buffer::new();
        let mut owner = Buffer::new();
        let mut start = Buffer::new();
        put_all(
            out,
            &[
                b"{\"level\":",
                level.format(self.level).as_bytes(),
                b",\"owner\":",
                owner.format(self.owner).as_bytes(),
                b",\"start\":",
                start.format(self.start).as_bytes(),
                b"}",
            ],
        )
    }
}

impl<T: Written> Written for Option<T> {
    ghost value = { or_null T.value };

    fn put(&self, out: &mut Vec<u8>) -> Result<(), Memory> {
        match self {
            Some(value) => value.put(out),
            None => put(out, b"null"),
        }
    }
}

/// Puts what is told of a flight, and 0x0A at its end.
#[tactic(auto, unfolding(json::proofs::OnLiterals::json_on_literals))]
pub(crate) fn put_flight(out: &mut Vec<u8>, view: &FlightView) -> Result<(), Memory>
    ensures { Puts result out.old out.new (reply_text (Flight view.now)) }
{
    put_line(
        out,
        &[
            ("{\"call\":", Datum::Callsign(view.call)),
            (",\"due\":", Datum::Truth(view.due)),
            (",\"end\":", Datum::Count(view.end)),
            (",\"level\":", Datum::Level(view.level)),
            (",\"row\":", Datum::Row(&view.row)),
            (",\"start\":", Datum::Count(view.start)),
            (",\"tentative\":", Datum::Tent(&view.tentative)),
            (",\"version\":", Datum::Version(view.version)),
        ],
    )
}
