//! The object that bytes are read as, and the refusals that name a field.
ghost use Rattle.std.specs.Prelude.{◌≡◌, ◌⊎◌, ℕ, List, None, Some, MatchResult};
ghost use Rattle.mt_json.specs.Shown.{members};
ghost use Rattle.mt_json.specs.View.{view};
ghost use Rattle.mt_read.specs.Line.{decoded, least_other, named_fault};
ghost use Rattle.mt_read.specs.declared.request.LineNo.TheVariants.{Json, Form, Memory as no_memory};

use crate::key::{Fault, key_text};
use crate::request::LineNo;
use mt_base::FieldName;
use mt_json::{Fields, Scratch, Unread, Value};
use mt_memory::Memory;
use std::alloc::Global;

impl From<Memory> for LineNo {
    ghost from_gives = { λ _ e. e ≡ no_memory };

    fn from(_: Memory) -> LineNo {
        LineNo::Memory
    }
}

/// The value that the bytes are read as.
pub(crate) fn value_of<'a>(
    alloc: Global,
    scratch: &'a mut Scratch,
    bytes: &'a [u8],
) -> Result<Value<'a>, LineNo>
    ensures { MatchResult result (λ v. decoded bytes.now ≡ Some (view v))
        (λ e. (e ≡ no_memory) ⊎ ((e ≡ Json) × (decoded bytes.now ≡ None))) }
{
    match Value::read(alloc, bytes, scratch) {
        Ok(value) => Ok(value),
        Err(Unread::Json) => Err(LineNo::Json),
        Err(Unread::Memory) => Err(LineNo::Memory),
    }
}

/// The refusal of a line for its form, with a name.
pub(crate) fn form(alloc: Global, name: &[u8]) -> LineNo
    ensures { (result ≡ no_memory) ⊎ (result ≡ Form name.now) }
{
    match FieldName::of(alloc, name) {
        Ok(name) => LineNo::Form(name),
        Err(Memory) => LineNo::Memory,
    }
}

/// The object has no other key than these, each with a space after it.
pub(crate) fn no_other(alloc: Global, fields: &Fields, keys: &str) -> Result<(), LineNo>
    ensures { MatchResult result (λ _. least_other keys.now (members fields.now) ≡ None)
        (λ e. (e ≡ no_memory) ⊎ ((key : List ℕ) × (least_other keys.now (members fields.now) ≡ Some key) × (e ≡ Form key))) }
{
    match fields.only(keys) {
        Ok(()) => Ok(()),
        Err(extra) => Err(form(alloc, extra.key.as_bytes())),
    }
}

/// A refusal, with the text of its key.
pub(crate) fn named(alloc: Global, fault: Fault) -> LineNo
    ensures { (result ≡ no_memory) ⊎ (result ≡ named_fault fault) }
{
    let (Fault::Form(key) | Fault::Range(key)) = fault;
    let Ok(name) = FieldName::of(alloc, key_text(key).as_bytes()) else {
        return LineNo::Memory;
    };
    match fault {
        Fault::Form(_) => LineNo::Form(name),
        Fault::Range(_) => LineNo::Range(name),
    }
}
