//! What an entered command answers.
ghost use Rattle.std.specs.Prelude.{◌≡◌, ◌||◌, ◌++◌, [], codes, decimal, false, MatchResult, Ok, Err};
ghost use Rattle.serde_json.specs.Written.{compact_text};
ghost use Rattle.mt_write.specs.Private.Flags.{flag_text, flags_text, verdict_value};
ghost use Rattle.mt_write.specs.declared.reply.Reply.TheVariants.{Entered as answered};
ghost use Rattle.mt_write.specs.Private.Puts.{Puts};
ghost use Rattle.mt_write.specs.Reply.{reply_text};

use crate::object::put_versioned;
use crate::write::{put, put_all, put_byte, put_quoted};
use crate::written::Written;
use itoa::Buffer;
use mt_base::{Entered, Verdict};
use mt_memory::Memory;

// Puts the name of a flag that holds, after what stands before it; whether a name stands then.
fn put_flag(out: &mut Vec<u8>, later: bool, name: &str, holds: bool) -> Result<bool, Memory>
    ensures { MatchResult result
        (λ then. Puts (Ok (tt {0})) out.old out.new (flag_text later name.now holds) × (then ≡ (later || holds)))
        (λ no. Puts (Err no) out.old out.new (flag_text later name.now holds)) }
{
    if !holds {
        return Ok(later);
    }
    put_byte(out, if later { b',' } else { b'[' })?;
    put_quoted(out, name.as_bytes())?;
    Ok(true)
}

// Puts what ends the list of flags.
fn put_end(out: &mut Vec<u8>, later: bool) -> Result<(), Memory>
    ensures { Puts result out.old out.new (flags_text later []) }
{
    if later {
        return put_byte(out, b']');
    }
    put(out, b"[]")
}

// Puts the names of the flags that hold as a list.
fn put_flags(out: &mut Vec<u8>, flags: &[(&str, bool)]) -> Result<(), Memory>
    ensures { Puts result out.old out.new (flags_text false flags.now) }
{
    let mut later = false;
    for (name, holds) in flags {
        later = put_flag(out, later, name, *holds)?;
    }
    put_end(out, later)
}

impl Written for Verdict {
    ghost value = { verdict_value };

    fn put(&self, out: &mut Vec<u8>) -> Result<(), Memory> {
        put_flags(
            out,
            &[
                ("lateral", self.lateral),
                ("along", self.along),
                ("vertical", self.vertical),
                ("aged", self.aged),
                ("outside", self.outside),
            ],
        )
    }
}

// Puts what an entered report answers.
fn put_judged(out: &mut Vec<u8>, verdict: &Verdict, version: u64) -> Result<(), Memory>
    ensures { Puts result out.old out.new
        (((codes "{\"entered\":" ++ (decimal version ++ codes ",\"verdict\":")) ++ compact_text (verdict_value verdict.now)) ++ codes "}\n") }
{
    let mut digits = Buffer::new();
    put_all(
        out,
        &[
            b"{\"entered\":",
            digits.format(version).as_bytes(),
            b",\"verdict\":",
        ],
    )?;
    verdict.put(out)?;
    put(out, b"}\n")
}

/// Puts what an entered command answers: the version with it, and the verdict on a report.
pub(crate) fn put_entered(out: &mut Vec<u8>, entered: &Entered) -> Result<(), Memory>
    ensures { Puts result out.old out.new (reply_text (answered entered.now)) }
{
    match &entered.verdict {
        None => put_versioned(out, "{\"entered\":", entered.version),
        Some(verdict) => put_judged(out, verdict, entered.version),
    }
}
