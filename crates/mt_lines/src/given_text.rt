//! The text of a reply that is given.
ghost use Rattle.std.specs.Prelude.{◌≡◌, ◌<◌, ◌≤◌, ◌^◌, true, vec_capacity};
ghost use Rattle.mt_lines.specs.Fit.{IsFit};
ghost use Rattle.mt_lines.specs.Given.{is_brief, is_farewell};
ghost use Rattle.mt_lines.specs.Private.Given.{IsGivenAs};
ghost use Rattle.mt_lines.specs.Private.Text.{text_in};
ghost use Rattle.mt_write.specs.Short.{IsShort};

use mt_write::{DoneWord, Reply, write_reply, write_short};
use std::alloc::Global;

/// The text of a reply: in the room that was lent, or in memory of its own; and whether it is the last one.
#[derive(Drop)]
pub struct GivenText {
    own: Option<Vec<u8>>,
    pub is_last: bool,
}

impl GivenText {
    /// The text, where the room is as it was left.
    pub fn bytes<'a>(&'a self, room: &'a [u8]) -> &'a [u8]
        ensures { result.now ≡ text_in self.now room.now }
    {
        match &self.own {
            Some(own) => own,
            None => room,
        }
    }
}

/// Makes the text of a reply, or that of `memory` where a text that isn't brief finds none.
///
/// A reply that is brief is written in the room, which is to have 65,536 bytes: it wants no memory.
pub fn text_of(alloc: Global, reply: &Reply, room: &mut Vec<u8>) -> GivenText
    requires room { 65536 ≤ vec_capacity room.old }
    requires fit { IsFit reply.now }
    ensures given { IsGivenAs reply.now (text_in result room.new.items) result.is_last }
    ensures room { 65536 ≤ vec_capacity room.new }
{
    room.clear();
    let is_last = is_farewell(reply);
    if is_brief(reply) {
        write_short(reply, room);
        return GivenText { own: None, is_last };
    }
    match write_reply(alloc, reply) {
        Ok(text) => GivenText {
            own: Some(text),
            is_last,
        },
        Err(_) => {
            write_short(&Reply::Memory, room);
            GivenText {
                own: None,
                is_last: false,
            }
        }
    }
}

// Numbers are bound by which the proof knows how many bits they have.
fn is_brief(reply: &Reply) -> bool
    requires { IsFit reply.now }
    ensures brief { result ≡ is_brief reply.now }
    ensures short { result ≡ true → IsShort reply.now }
{
    match *reply {
        Reply::Done(_) => true,
        Reply::Hello(_) => true,
        Reply::Entered(entered) => {
            version_is_short(entered.version);
            true
        }
        Reply::Taken { version: _version } => true,
        Reply::Probe {
            eff: _eff,
            probe: _probe,
            version: _version,
            ..
        } => true,
        Reply::Advice {
            eff: _eff,
            version: _version,
            ..
        } => true,
        Reply::Settled {
            version: _version,
            ..
        } => true,
        Reply::Json | Reply::Long | Reply::Begun | Reply::Unbegun => true,
        Reply::Bands | Reply::TablesFull | Reply::Memory => true,
        Reply::Shape | Reply::AreasFull => true,
        Reply::List { .. } | Reply::Flight(_) | Reply::Due { .. } | Reply::History { .. } => false,
        Reply::Areas { .. } => false,
        Reply::Form(_) | Reply::Range(_) | Reply::TakenFix(_) | Reply::TakenType(_) => false,
        Reply::Refused { .. } | Reply::Illegal { .. } | Reply::Late { .. } => false,
    }
}

// A version has 64 bits. It does nothing; the proof of its caller goes by its contract.
fn version_is_short(version: u64)
    ensures { version < 2 ^ 64 }
{}

fn is_farewell(reply: &Reply) -> bool
    ensures { result ≡ is_farewell reply.now }
{
    match reply {
        Reply::Done(DoneWord::Bye) => true,
        _ => false,
    }
}
