//! Objects of JSON, written from their members in order.
ghost use Rattle.std.specs.Prelude.{◌++◌, ◌∷◌, [], decimal};
ghost use Rattle.serde_json.specs.Data.{array, string};
ghost use Rattle.serde_json.specs.Written.{compact_text};
ghost use Rattle.mt_write.specs.Entry.{values};
ghost use Rattle.mt_write.specs.Private.Object.{data_of, ended_text, line_text, list_text, member_text, object_text};
ghost use Rattle.mt_write.specs.Private.Puts.{Puts};

use crate::escape::put_escaped;
use crate::write::{put, put_all, put_byte};
use crate::written::{Written, put_items};
use itoa::Buffer;
use mt_base::{Callsign, FixName, Hit, Row, Tent};
use mt_memory::Memory;

/// A member's value.
#[derive(Clone, Copy)]
pub(crate) enum Datum<'a> {
    Whole(&'a i64),
    Count(u32),
    Version(u64),
    Truth(bool),
    Callsign(Callsign),
    FixName(FixName),
    Text(&'a [u8]),
    Level(Option<u32>),
    Row(&'a Option<Row>),
    Tent(&'a Option<Tent>),
    Hit(&'a Hit),
}

// Puts a text between quotes.
fn put_text(out: &mut Vec<u8>, text: &[u8]) -> Result<(), Memory>
    ensures { Puts result out.old out.new (compact_text (string text.now)) }
{
    put_byte(out, b'"')?;
    put_escaped(out, text)?;
    put_byte(out, b'"')
}

/// Puts a list.
pub(crate) fn put_array<T: Written>(out: &mut Vec<u8>, items: &[T]) -> Result<(), Memory>
    ensures { Puts result out.old out.new (compact_text (array (values T.value items.now))) }
{
    put_byte(out, b'[')?;
    put_items(out, items)
}

impl Written for Datum<'_> {
    ghost value = { data_of };

    #[inline(always)]
    fn put(&self, out: &mut Vec<u8>) -> Result<(), Memory> {
        match self {
            Datum::Whole(number) => number.put(out),
            Datum::Count(number) => number.put(out),
            Datum::Version(number) => number.put(out),
            Datum::Truth(truth) => truth.put(out),
            Datum::Callsign(call) => call.put(out),
            Datum::FixName(name) => name.put(out),
            Datum::Text(text) => put_text(out, text),
            Datum::Level(level) => level.put(out),
            Datum::Row(row) => row.put(out),
            Datum::Tent(tent) => tent.put(out),
            Datum::Hit(hit) => hit.put(out),
        }
    }
}

/// A member: what stands before its value, and the value. Before it stand a bracket or comma, its key, and members that never vary.
pub(crate) type Keyed<'a> = (&'a str, Datum<'a>);

// Puts a member.
#[inline(always)]
fn put_member(out: &mut Vec<u8>, member: &Keyed) -> Result<(), Memory>
    ensures { Puts result out.old out.new (member_text member.now) }
{
    put(out, member.0.as_bytes())?;
    member.1.put(out)
}

// Puts members in order, and what ends them.
fn put_members(out: &mut Vec<u8>, members: &[Keyed], end: &[u8]) -> Result<(), Memory>
    ensures { Puts result out.old out.new (ended_text end.now members.now) }
{
    for member in members {
        put_member(out, member)?;
    }
    put(out, end)
}

/// Puts an object, its members in order.
pub(crate) fn put_object(out: &mut Vec<u8>, members: &[Keyed]) -> Result<(), Memory>
    ensures { Puts result out.old out.new (object_text members.now) }
{
    put_members(out, members, b"}")
}

/// Puts such an object and 0x0A.
pub(crate) fn put_line(out: &mut Vec<u8>, members: &[Keyed]) -> Result<(), Memory>
    ensures { Puts result out.old out.new (line_text members.now) }
{
    put_members(out, members, b"}\n")
}

/// Puts an object whose last value is a version, and 0x0A, the front being what stands before it.
pub(crate) fn put_versioned(out: &mut Vec<u8>, front: &str, version: u64) -> Result<(), Memory>
    ensures { Puts result out.old out.new ((front.now ++ (decimal version ++ 125 ∷ [])) ++ 10 ∷ []) }
{
    let mut digits = Buffer::new();
    put_all(
        out,
        &[front.as_bytes(), digits.format(version).as_bytes(), b"}\n"],
    )
}

/// Puts an object whose first member is a list, and 0x0A. The front is what stands before the first item.
pub(crate) fn put_list<T: Written>(
    out: &mut Vec<u8>,
    front: &str,
    items: &[T],
    members: &[Keyed],
) -> Result<(), Memory>
    ensures { Puts result out.old out.new (list_text front.now (values T.value items.now) members.now) }
{
    put(out, front.as_bytes())?;
    put_items(out, items)?;
    put_line(out, members)
}
