//! A route: a list of the names of fixes.
ghost use Rattle.std.specs.Prelude.{◌≡◌, [], Ok, unwrap_or, IfOk};
ghost use Rattle.mt_base.specs.Checks.{check_answer};
ghost use Rattle.mt_json.specs.Shown.{members};
ghost use Rattle.mt_json.specs.View.{items_view, view};
ghost use Rattle.mt_read.specs.Field.{as_fix, as_list_of, each_of, read_at};
ghost use Rattle.mt_read.specs.Private.Field.{there};
ghost use Rattle.mt_read.specs.Private.FieldReading.{IsValueRead};

use crate::key::{Fault, Key, key_text};
use mt_base::{FixName, Route};
use mt_json::{Fields, Value};
use mt_memory::Memory;
use std::alloc::Global;

// The name of a fix that a value is.
fn fix_of(value: &Value) -> Option<FixName>
    ensures { result ≡ as_fix (view value.now) }
{
    FixName::of(value.as_str()?.as_bytes())
}

// The names that the values are, unless one of them is none.
fn route_of(alloc: Global, values: &[Value]) -> Result<Option<Route>, Memory>
    ensures { IfOk result (λ route. route ≡ each_of as_fix (items_view values.now)) }
{
    let mut route = Route::make(alloc)?;
    for value in values {
        let Some(name) = fix_of(value) else {
            return Ok(None);
        };
        route.push(name)?;
    }
    Ok(Some(route))
}

/// A list of the names of fixes.
#[tactic(auto, unfolding(mt_base::specs::Checks::check_answer))]
pub(crate) fn route(
    alloc: Global,
    fields: &Fields,
    key: Key,
) -> Result<Result<Route, Fault>, Memory>
    ensures { IfOk result (λ found. IsValueRead found (check_answer (there key (as_list_of as_fix) (members fields.now))) (Ok (tt {0}))
        (unwrap_or (read_at key (as_list_of as_fix) (members fields.now)) [])) }
{
    let Ok(values) = fields.list(key_text(key)) else {
        return Ok(Err(Fault::Form(key)));
    };
    match route_of(alloc, values)? {
        Some(route) => Ok(Ok(route)),
        None => Ok(Err(Fault::Form(key))),
    }
}
