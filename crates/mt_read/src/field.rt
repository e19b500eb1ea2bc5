//! What stands at a key, where it is there and of its kind.
ghost use Rattle.std.specs.Prelude.{◌≡◌, [], Ok, true, false, not, unwrap_or};
ghost use Rattle.mt_base.specs.Checks.{check_answer};
ghost use Rattle.mt_base.specs.declared.role.Role.TheVariants.{Feed};
ghost use Rattle.mt_json.specs.Shown.{members};
ghost use Rattle.serde_json.specs.Find.{as_bool};
ghost use Rattle.mt_read.specs.declared.key.Key.TheVariants as key;
ghost use Rattle.mt_read.specs.Field.{as_call, as_fix, as_role, as_type, form_check, is_of, is_present, read_at, role_of};
ghost use Rattle.mt_read.specs.Private.Field.{there};
ghost use Rattle.mt_read.specs.Private.FieldReading.{IsValueRead};

use crate::key::{Fault, Key, key_text};
use mt_base::{Callsign, FixName, Role, TypeName};
use mt_json::{Bad, Fields};

/// Whether a member has the key.
pub(crate) fn stands(fields: &Fields, key: Key) -> bool
    ensures { result ≡ is_present key (members fields.now) }
{
    match fields.word(key_text(key)) {
        Ok(_) | Err(Bad::Kind | Bad::Range) => true,
        Err(Bad::Missing) => false,
    }
}

/// A truth value, or `absent` where there may be none.
#[tactic(auto, unfolding(mt_base::specs::Checks::check_answer))]
pub(crate) fn flag(fields: &Fields, key: Key, may_lack: bool, absent: bool) -> Result<bool, Fault>
    ensures { IsValueRead result (check_answer (form_check key may_lack true (is_of as_bool) (members fields.now))) (Ok (tt {0}))
        (unwrap_or (read_at key as_bool (members fields.now)) absent) }
{
    match fields.flag(key_text(key)) {
        Ok(truth) => Ok(truth),
        Err(Bad::Missing) if may_lack => Ok(absent),
        Err(_) => Err(Fault::Form(key)),
    }
}

/// A callsign.
#[tactic(auto, unfolding(mt_base::specs::Checks::check_answer))]
pub(crate) fn callsign(fields: &Fields, key: Key) -> Result<Callsign, Fault>
    ensures { IsValueRead result (check_answer (there key as_call (members fields.now))) (Ok (tt {0}))
        (unwrap_or (read_at key as_call (members fields.now)) []) }
{
    let Ok(text) = fields.word(key_text(key)) else {
        return Err(Fault::Form(key));
    };
    match Callsign::of(text.as_bytes()) {
        Some(call) => Ok(call),
        None => Err(Fault::Form(key)),
    }
}

/// The name of a fix.
#[tactic(auto, unfolding(mt_base::specs::Checks::check_answer))]
pub(crate) fn fix_name(fields: &Fields, key: Key) -> Result<FixName, Fault>
    ensures { IsValueRead result (check_answer (there key as_fix (members fields.now))) (Ok (tt {0}))
        (unwrap_or (read_at key as_fix (members fields.now)) []) }
{
    let Ok(text) = fields.word(key_text(key)) else {
        return Err(Fault::Form(key));
    };
    match FixName::of(text.as_bytes()) {
        Some(name) => Ok(name),
        None => Err(Fault::Form(key)),
    }
}

/// The name of a type.
#[tactic(auto, unfolding(mt_base::specs::Checks::check_answer))]
pub(crate) fn type_name(fields: &Fields, key: Key) -> Result<TypeName, Fault>
    ensures { IsValueRead result (check_answer (there key as_type (members fields.now))) (Ok (tt {0}))
        (unwrap_or (read_at key as_type (members fields.now)) []) }
{
    let Ok(text) = fields.word(key_text(key)) else {
        return Err(Fault::Form(key));
    };
    match TypeName::of(text.as_bytes()) {
        Some(name) => Ok(name),
        None => Err(Fault::Form(key)),
    }
}

// The role that a text is.
fn role_of(text: &str) -> Option<Role>
    ensures { result ≡ role_of text.now }
{
    if text == "feed" {
        return Some(Role::Feed);
    }
    if text == "position" {
        return Some(Role::Position);
    }
    None
}

/// A role.
#[tactic(auto, unfolding(mt_base::specs::Checks::check_answer))]
pub(crate) fn role(fields: &Fields, key: Key) -> Result<Role, Fault>
    ensures { IsValueRead result (check_answer (there key as_role (members fields.now))) (Ok (tt {0}))
        (unwrap_or (read_at key as_role (members fields.now)) Feed) }
{
    let Ok(text) = fields.word(key_text(key)) else {
        return Err(Fault::Form(key));
    };
    match role_of(text) {
        Some(role) => Ok(role),
        None => Err(Fault::Form(key)),
    }
}

/// The fix to fly direct to, where one is given and no level.
#[tactic(auto, unfolding(mt_base::specs::Checks::check_answer))]
pub(crate) fn direct(fields: &Fields) -> Result<Option<FixName>, Fault>
    ensures { IsValueRead result (check_answer (form_check key.Direct true (not (is_present key.Level (members fields.now))) (is_of as_fix) (members fields.now)))
        (Ok (tt {0})) (read_at key.Direct as_fix (members fields.now)) }
{
    match fields.word(key_text(Key::Direct)) {
        Err(Bad::Missing) => Ok(None),
        Ok(text) if !stands(fields, Key::Level) => match FixName::of(text.as_bytes()) {
            Some(fix) => Ok(Some(fix)),
            None => Err(Fault::Form(Key::Direct)),
        },
        Ok(_) | Err(_) => Err(Fault::Form(Key::Direct)),
    }
}
