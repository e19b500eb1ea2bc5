//! The refusal of an entry that a standby was to follow.
ghost use Rattle.std.specs.Prelude.{◌≡◌};
ghost use Rattle.mt_write.specs.declared.reply.Reply.TheVariants.{Illegal};
ghost use Rattle.mt_write.specs.Private.Puts.{Puts};
ghost use Rattle.mt_write.specs.Reply.{refusal_word, reply_text};

use crate::object::{Datum, put_line};
use mt_base::Refusal;
use mt_memory::Memory;

// The word of a refusal.
fn word_of(refusal: &Refusal) -> &'static [u8]
    ensures { result.now ≡ refusal_word refusal.now }
{
    match refusal {
        Refusal::HeldCall => b"held-call",
        Refusal::UnknownCall(_) => b"unknown-call",
        Refusal::UnknownType(_) => b"unknown-type",
        Refusal::UnknownFix(_) => b"unknown-fix",
        Refusal::RouteShort | Refusal::RouteLong | Refusal::RouteTwice => b"route",
        Refusal::Full => b"full",
        Refusal::HistoryFull => b"history-full",
        Refusal::Backward => b"backward",
        Refusal::Old => b"old",
        Refusal::Future => b"future",
        Refusal::Ended => b"ended",
        Refusal::NotAhead => b"not-ahead",
        Refusal::Ceiling => b"ceiling",
        Refusal::TentativeHeld { .. } => b"tentative-held",
        Refusal::NoTentative => b"no-tentative",
        Refusal::NotOwner => b"not-owner",
        Refusal::NoProbe => b"no-probe",
        Refusal::NotFree => b"not-free",
        Refusal::Stale { .. } => b"stale",
        Refusal::NotDue => b"not-due",
        Refusal::Fixed => b"fixed",
    }
}

/// Puts the refusal of an entry that is not what is decided of its command, with the version at which that holds and the word of why.
#[tactic(auto, unfolding(json::proofs::OnLiterals::json_on_literals))]
pub(crate) fn put_illegal(out: &mut Vec<u8>, version: u64, refusal: &Refusal) -> Result<(), Memory>
    ensures { Puts result out.old out.new (reply_text (Illegal version refusal.now)) }
{
    put_line(
        out,
        &[
            ("{\"no\":\"illegal\",\"version\":", Datum::Version(version)),
            (",\"why\":", Datum::Text(word_of(refusal))),
        ],
    )
}
