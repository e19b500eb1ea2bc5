//! The refusal of a command.
ghost use Rattle.mt_write.specs.declared.reply.Reply.TheVariants.{Refused};
ghost use Rattle.mt_write.specs.Private.Puts.{Puts};
ghost use Rattle.mt_write.specs.Reply.{bad_route, held_by, reply_text};
ghost use Rattle.serde_json.specs.Data.{object};
ghost use Rattle.serde_json.specs.Written.{compact_text};
ghost use Rattle.std.specs.Prelude.{[], ◌∷◌, ◌++◌, codes, decimal};

use crate::object::{Datum, put_line, put_versioned};
use crate::write::put;
use crate::written::Written;
use mt_base::Refusal;
use mt_memory::Memory;

// Puts the refusal of a route, and why.
#[tactic(auto, unfolding(json::proofs::OnLiterals::json_on_literals))]
fn put_bad_route(out: &mut Vec<u8>, why: &[u8], version: u64) -> Result<(), Memory>
    ensures { Puts result out.old out.new (compact_text (object (bad_route why.now version)) ++ 10 ∷ []) }
{
    put_line(
        out,
        &[
            ("{\"no\":\"route\",\"version\":", Datum::Version(version)),
            (",\"why\":", Datum::Text(why)),
        ],
    )
}

// Puts the refusal of a name that is unknown, the rest being what stands between the name and the version.
fn put_unknown<T: Written>(
    out: &mut Vec<u8>,
    name: &T,
    rest: &str,
    version: u64,
) -> Result<(), Memory>
    ensures { Puts result out.old out.new (codes "{\"name\":" ++ ((compact_text (T.value name.now) ++ (rest.now ++ (decimal version ++ 125 ∷ []))) ++ 10 ∷ [])) }
{
    put(out, b"{\"name\":")?;
    name.put(out)?;
    put_versioned(out, rest, version)
}

// Puts the refusal of a command for another's tentative clearance.
#[tactic(auto, unfolding(json::proofs::OnLiterals::json_on_literals))]
fn put_held(out: &mut Vec<u8>, owner: u32, version: u64) -> Result<(), Memory>
    ensures { Puts result out.old out.new (compact_text (object (held_by owner version)) ++ 10 ∷ []) }
{
    put_line(
        out,
        &[
            ("{\"no\":\"tentative-held\",\"owner\":", Datum::Count(owner)),
            (",\"version\":", Datum::Version(version)),
        ],
    )
}

/// Puts the refusal of a command, with the version at which it holds.
pub(crate) fn put_refused(out: &mut Vec<u8>, refusal: &Refusal, version: u64) -> Result<(), Memory>
    ensures { Puts result out.old out.new (reply_text (Refused refusal.now version)) }
{
    match refusal {
        Refusal::HeldCall => { put_versioned(out, "{\"no\":\"held-call\",\"version\":", version) }
        Refusal::UnknownCall(call) => put_unknown(
            out,
            call,
            ",\"no\":\"unknown-call\",\"version\":",
            version,
        ),
        Refusal::UnknownType(name) => put_unknown(
            out,
            name,
            ",\"no\":\"unknown-type\",\"version\":",
            version,
        ),
        Refusal::UnknownFix(name) => put_unknown(
            out,
            name,
            ",\"no\":\"unknown-fix\",\"version\":",
            version,
        ),
        Refusal::RouteShort => put_bad_route(out, b"short", version),
        Refusal::RouteLong => put_bad_route(out, b"long", version),
        Refusal::RouteTwice => put_bad_route(out, b"twice", version),
        Refusal::Full => put_versioned(out, "{\"no\":\"full\",\"version\":", version),
        Refusal::HistoryFull => {
            put_versioned(out, "{\"no\":\"history-full\",\"version\":", version)
        }
        Refusal::Backward => put_versioned(out, "{\"no\":\"backward\",\"version\":", version),
        Refusal::Old => put_versioned(out, "{\"no\":\"old\",\"version\":", version),
        Refusal::Future => put_versioned(out, "{\"no\":\"future\",\"version\":", version),
        Refusal::Ended => put_versioned(out, "{\"no\":\"ended\",\"version\":", version),
        Refusal::NotAhead => put_versioned(out, "{\"no\":\"not-ahead\",\"version\":", version),
        Refusal::Ceiling => put_versioned(out, "{\"no\":\"ceiling\",\"version\":", version),
        Refusal::TentativeHeld { owner } => put_held(out, *owner, version),
        Refusal::NoTentative => {
            put_versioned(out, "{\"no\":\"no-tentative\",\"version\":", version)
        }
        Refusal::NotOwner => put_versioned(out, "{\"no\":\"not-owner\",\"version\":", version),
        Refusal::NoProbe => put_versioned(out, "{\"no\":\"no-probe\",\"version\":", version),
        Refusal::NotFree => put_versioned(out, "{\"no\":\"not-free\",\"version\":", version),
        Refusal::Stale { first } => put_line(
            out,
            &[
                ("{\"conflict\":", Datum::Hit(first)),
                (",\"no\":\"stale\",\"version\":", Datum::Version(version)),
            ],
        ),
        Refusal::NotDue => put_versioned(out, "{\"no\":\"not-due\",\"version\":", version),
        Refusal::Fixed => put_versioned(out, "{\"no\":\"fixed\",\"version\":", version),
    }
}
