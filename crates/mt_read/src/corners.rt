//! The corners of an area: a list of lists of two numbers.
ghost use Rattle.std.specs.Prelude.{◌≡◌, [], is_some, option_map, unwrap_or, IfOk};
ghost use Rattle.mt_base.specs.Checks.{check_answer};
ghost use Rattle.mt_json.specs.Shown.{members};
ghost use Rattle.mt_json.specs.View.{items_view, view};
ghost use Rattle.mt_read.specs.Corners.{are_enough, are_whole, as_corner, as_corners, as_numbers, as_pair, corner_of, pair_of};
ghost use Rattle.mt_read.specs.Private.Corners.{pair_shown};
ghost use Rattle.mt_read.specs.Field.{as_list_of, each_of, read_at};
ghost use Rattle.mt_read.specs.Private.Field.{there};
ghost use Rattle.mt_read.specs.Private.FieldReading.{IsValueRead};
ghost use Rattle.mt_read.specs.declared.key.Fault.TheVariants.{Range};

use crate::bands::{bounded, is_whole};
use crate::key::{Fault, Key, key_text};
use mt_base::Corners;
use mt_json::{Fields, Value};
use mt_memory::Memory;
use std::alloc::Global;

// What stands in a list of exactly two.
#[derive(Clone, Copy)]
struct PairValues<'v, 'a> {
    east: &'v Value<'a>,
    north: &'v Value<'a>,
}

fn pair_of<'v, 'a>(values: &'v [Value<'a>]) -> Option<PairValues<'v, 'a>>
    ensures { option_map pair_shown result ≡ pair_of (items_view values.now) }
{
    match values {
        [east, north] => Some(PairValues { east, north }),
        _ => None,
    }
}

fn pair<'v, 'a>(value: &'v Value<'a>) -> Option<PairValues<'v, 'a>>
    ensures { option_map pair_shown result ≡ as_pair (view value.now) }
{
    pair_of(value.as_array()?)
}

fn are_whole(pair: &PairValues<'_, '_>) -> bool
    ensures { result ≡ are_whole (pair_shown pair.now) }
{
    is_whole(pair.east) && is_whole(pair.north)
}

fn corner_of(pair: &PairValues<'_, '_>) -> Option<(i64, i64)>
    ensures { result ≡ corner_of (pair_shown pair.now) }
{
    let east = bounded(pair.east, -3_686_400, 3_686_400)?;
    let north = bounded(pair.north, -3_686_400, 3_686_400)?;
    Some((east, north))
}

// Whether each value is a list of exactly two whole numbers.
fn are_numbers(values: &[Value]) -> bool
    ensures { result ≡ is_some (each_of as_numbers (items_view values.now)) }
{
    for value in values {
        let Some(pair) = pair(value) else {
            return false;
        };
        if !are_whole(&pair) {
            return false;
        }
    }
    true
}

// The corner that a value is.
fn corner(value: &Value) -> Option<(i64, i64)>
    ensures { result ≡ as_corner (view value.now) }
{
    corner_of(&pair(value)?)
}

// The corners that the values are, unless one of them is none.
fn corners_of(alloc: Global, values: &[Value]) -> Result<Option<Corners>, Memory>
    ensures { IfOk result (λ corners. corners ≡ each_of as_corner (items_view values.now)) }
{
    let mut corners = Corners::make(alloc)?;
    for value in values {
        let Some(corner) = corner(value) else {
            return Ok(None);
        };
        corners.push(corner)?;
    }
    Ok(Some(corners))
}

// Whether there are 3 to 16 corners.
fn are_enough(corners: &Corners) -> bool
    ensures { result ≡ are_enough corners.now }
{
    let count = corners.items().len();
    3 <= count && count <= 16
}

/// The corners at a key, 3 to 16, each in the plane.
#[tactic(auto, unfolding(mt_base::specs::Checks::check_answer))]
pub(crate) fn corners(
    alloc: Global,
    fields: &Fields,
    key: Key,
) -> Result<Result<Corners, Fault>, Memory>
    ensures { IfOk result (λ found. IsValueRead found (check_answer (there key (as_list_of as_numbers) (members fields.now)))
        (check_answer (Range key, is_some (read_at key as_corners (members fields.now)))) (unwrap_or (read_at key as_corners (members fields.now)) [])) }
{
    let Ok(values) = fields.list(key_text(key)) else {
        return Ok(Err(Fault::Form(key)));
    };
    if !are_numbers(values) {
        return Ok(Err(Fault::Form(key)));
    }
    match corners_of(alloc, values)? {
        Some(corners) if are_enough(&corners) => Ok(Ok(corners)),
        _ => Ok(Err(Fault::Range(key))),
    }
}
