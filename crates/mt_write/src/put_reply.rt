//! A reply put into a room.
ghost use Rattle.std.specs.Prelude.{[], ◌∷◌, ◌++◌, codes, decimal, false};
ghost use Rattle.serde_json.specs.Written.{compact_text, items_text};
ghost use Rattle.mt_write.specs.declared.reply.Reply.TheVariants.{Advice, Done, Hello, Probe};
ghost use Rattle.mt_write.specs.Entry.{values};
ghost use Rattle.mt_write.specs.Private.Puts.{Puts};
ghost use Rattle.mt_write.specs.Reply.{field_value, reply_text};

use crate::flight_view::put_flight;
use crate::illegal::put_illegal;
use crate::object::{Datum, put_line, put_list, put_versioned};
use crate::refused::put_refused;
use crate::reply::{AdviceItem, DoneWord, Reply};
use crate::verdict::put_entered;
use crate::write::put;
use crate::written::Written;
use mt_base::{Callsign, Hit, Role};
use mt_memory::Memory;

/// The text of the reply [`Reply::Memory`], which takes no memory to write.
pub const NO_MEMORY: &[u8] = b"{\"no\":\"memory\"}\n";

#[tactic(auto, unfolding(json::proofs::OnLiterals::json_on_literals))]
fn put_done(out: &mut Vec<u8>, word: DoneWord) -> Result<(), Memory>
    ensures { Puts result out.old out.new (reply_text (Done word)) }
{
    match word {
        DoneWord::Fix => put(out, b"{\"done\":\"fix\"}\n"),
        DoneWord::TypeLine => put(out, b"{\"done\":\"type\"}\n"),
        DoneWord::Area => put(out, b"{\"done\":\"area\"}\n"),
        DoneWord::Rule => put(out, b"{\"done\":\"rule\"}\n"),
        DoneWord::Begin => put(out, b"{\"done\":\"begin\"}\n"),
        DoneWord::Bye => put(out, b"{\"done\":\"bye\"}\n"),
    }
}

#[tactic(auto, unfolding(json::proofs::OnLiterals::json_on_literals))]
fn put_hello(out: &mut Vec<u8>, role: Role) -> Result<(), Memory>
    ensures { Puts result out.old out.new (reply_text (Hello role)) }
{
    match role {
        Role::Feed => put(out, b"{\"role\":\"feed\"}\n"),
        Role::Position => put(out, b"{\"role\":\"position\"}\n"),
    }
}

// Puts a list and its version, the front being what stands before the first item.
#[tactic(auto, unfolding(json::proofs::OnLiterals::json_on_literals))]
fn put_at_version<T: Written>(
    out: &mut Vec<u8>,
    front: &str,
    items: &[T],
    version: u64,
) -> Result<(), Memory>
    ensures { Puts result out.old out.new (front.now ++ ((items_text false (values T.value items.now) ++ (codes ",\"version\":" ++ (decimal version ++ codes "}"))) ++ 10 ∷ [])) }
{
    put_list(
        out,
        front,
        items,
        &[(",\"version\":", Datum::Version(version))],
    )
}

// Puts the reply to a probe.
#[tactic(auto, unfolding(json::proofs::OnLiterals::json_on_literals))]
fn put_probe(
    out: &mut Vec<u8>,
    hits: &[Hit],
    eff: u32,
    probe: u64,
    version: u64,
) -> Result<(), Memory>
    ensures { Puts result out.old out.new (reply_text (Probe hits.now eff probe version)) }
{
    put_list(
        out,
        "{\"conflicts\":[",
        hits,
        &[
            (",\"eff\":", Datum::Count(eff)),
            (",\"probe\":", Datum::Version(probe)),
            (",\"version\":", Datum::Version(version)),
        ],
    )
}

// Puts the reply to a question for advice.
#[tactic(auto, unfolding(json::proofs::OnLiterals::json_on_literals))]
fn put_advice(
    out: &mut Vec<u8>,
    advice: &[AdviceItem],
    call: &Callsign,
    eff: u32,
    version: u64,
) -> Result<(), Memory>
    ensures { Puts result out.old out.new (reply_text (Advice advice.now call.now eff version)) }
{
    put_list(
        out,
        "{\"advice\":[",
        advice,
        &[
            (",\"call\":", Datum::Callsign(*call)),
            (",\"eff\":", Datum::Count(eff)),
            (",\"version\":", Datum::Version(version)),
        ],
    )
}

// Puts a refusal that names a field.
#[tactic(auto, unfolding(json::proofs::OnLiterals::json_on_literals))]
fn put_field(out: &mut Vec<u8>, name: &[u8], word: &[u8]) -> Result<(), Memory>
    ensures { Puts result out.old out.new (compact_text (field_value name.now word.now) ++ 10 ∷ []) }
{
    put_line(
        out,
        &[
            ("{\"field\":", Datum::Text(name)),
            (",\"no\":", Datum::Text(word)),
        ],
    )
}

// Puts a refusal that names what is taken.
#[tactic(auto, unfolding(json::proofs::OnLiterals::json_on_literals))]
fn put_taken<T: Written>(out: &mut Vec<u8>, name: &T) -> Result<(), Memory>
    ensures { Puts result out.old out.new (codes "{\"name\":" ++ ((compact_text (T.value name.now) ++ codes ",\"no\":\"taken\"}") ++ 10 ∷ [])) }
{
    put(out, b"{\"name\":")?;
    name.put(out)?;
    put(out, b",\"no\":\"taken\"}\n")
}

/// Puts the text of a reply after what stands in the room.
#[tactic(auto, unfolding(json::proofs::OnLiterals::json_on_literals))]
pub(crate) fn put_reply(out: &mut Vec<u8>, reply: &Reply) -> Result<(), Memory>
    ensures { Puts result out.old out.new (reply_text reply.now) }
{
    match reply {
        Reply::Done(word) => put_done(out, *word),
        Reply::Hello(role) => put_hello(out, *role),
        Reply::Taken { version } => put_versioned(out, "{\"taken\":", *version),
        Reply::Entered(entered) => put_entered(out, entered),
        Reply::List { conflicts, version } => {
            put_at_version(out, "{\"conflicts\":[", conflicts.items(), *version)
        }
        Reply::Probe {
            conflicts,
            eff,
            probe,
            version,
        } => put_probe(out, conflicts.items(), *eff, *probe, *version),
        Reply::Advice {
            advice,
            call,
            eff,
            version,
        } => put_advice(out, advice.items(), call, *eff, *version),
        Reply::Flight(view) => put_flight(out, view),
        Reply::Due { calls, version } => put_at_version(
            out,
            "{\"calls\":[",
            calls.items(),
            *version,
        ),
        Reply::Settled { left, version } => {
            put_at_version(out, "{\"left\":[", left.items(), *version)
        }
        Reply::History { entries, version } => {
            put_at_version(out, "{\"entries\":[", entries.items(), *version)
        }
        Reply::Areas { areas, version } => {
            put_at_version(out, "{\"areas\":[", areas.items(), *version)
        }
        Reply::Json => put(out, b"{\"no\":\"json\"}\n"),
        Reply::Long => put(out, b"{\"no\":\"long\"}\n"),
        Reply::Begun => put(out, b"{\"no\":\"begun\"}\n"),
        Reply::Unbegun => put(out, b"{\"no\":\"unbegun\"}\n"),
        Reply::Bands => put(out, b"{\"no\":\"bands\"}\n"),
        Reply::TablesFull => put(out, b"{\"no\":\"tables-full\"}\n"),
        Reply::Shape => put(out, b"{\"no\":\"shape\"}\n"),
        Reply::AreasFull => put(out, b"{\"no\":\"areas-full\"}\n"),
        Reply::Memory => put(out, NO_MEMORY),
        Reply::Form(name) => put_field(out, name.bytes(), b"form"),
        Reply::Range(name) => put_field(out, name.bytes(), b"range"),
        Reply::TakenFix(name) => put_taken(out, name),
        Reply::TakenType(name) => put_taken(out, name),
        Reply::Refused { refusal, version } => put_refused(out, refusal, *version),
        Reply::Illegal { version, refusal } => put_illegal(out, *version, refusal),
        Reply::Late { version } => put_versioned(out, "{\"no\":\"late\",\"version\":", *version),
    }
}
