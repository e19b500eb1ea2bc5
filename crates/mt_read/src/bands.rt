//! The bands of a type: a list of lists of four numbers.
ghost use Rattle.std.specs.Prelude.{◌≡◌, [], is_some, option_map, unwrap_or, IfOk};
ghost use Rattle.mt_base.specs.Checks.{check_answer};
ghost use Rattle.mt_json.specs.Field.{as_whole};
ghost use Rattle.mt_json.specs.Shown.{members};
ghost use Rattle.mt_json.specs.View.{items_view, view};
ghost use Rattle.mt_read.specs.Bands.{are_few, are_whole, as_band, as_bands, as_bounded, as_four, as_numbers, band_of, four_of};
ghost use Rattle.mt_read.specs.Private.Bands.{four_shown};
ghost use Rattle.mt_read.specs.Field.{as_list_of, each_of, read_at};
ghost use Rattle.mt_read.specs.Private.Field.{there};
ghost use Rattle.mt_read.specs.Private.FieldReading.{IsValueRead};
ghost use Rattle.mt_read.specs.declared.key.Fault.TheVariants.{Range};

use crate::key::{Fault, Key, key_text};
use mt_base::{Band, Bands};
use mt_json::{Fields, Value};
use mt_memory::Memory;
use std::alloc::Global;

// What stands in a list of exactly four.
#[derive(Clone, Copy)]
struct FourValues<'v, 'a> {
    top: &'v Value<'a>,
    speed: &'v Value<'a>,
    climb: &'v Value<'a>,
    descent: &'v Value<'a>,
}

fn four_of<'v, 'a>(values: &'v [Value<'a>]) -> Option<FourValues<'v, 'a>>
    ensures { option_map four_shown result ≡ four_of (items_view values.now) }
{
    match values {
        [top, speed, climb, descent] => Some(FourValues {
            top,
            speed,
            climb,
            descent,
        }),
        _ => None,
    }
}

fn four<'v, 'a>(value: &'v Value<'a>) -> Option<FourValues<'v, 'a>>
    ensures { option_map four_shown result ≡ as_four (view value.now) }
{
    four_of(value.as_array()?)
}

// Whether a value is a whole number.
pub(crate) fn is_whole(value: &Value) -> bool
    ensures { result ≡ is_some (as_whole (view value.now)) }
{
    match value.as_number() {
        Some(number) => !number.is_f64(),
        None => false,
    }
}

fn are_whole(four: &FourValues<'_, '_>) -> bool
    ensures { result ≡ are_whole (four_shown four.now) }
{
    is_whole(four.top) && is_whole(four.speed) && is_whole(four.climb) && is_whole(four.descent)
}

// The whole number that a value is, from `low` to `high`.
pub(crate) fn bounded(value: &Value, low: i64, high: i64) -> Option<i64>
    ensures { result ≡ as_bounded low high (view value.now) }
{
    match value.as_number()?.as_i64() {
        Some(number) if low <= number && number <= high => Some(number),
        _ => None,
    }
}

fn band_of(four: &FourValues<'_, '_>) -> Option<Band>
    ensures { result ≡ band_of (four_shown four.now) }
{
    let top = bounded(four.top, 1, 600)?;
    let speed = bounded(four.speed, 1, 1_000)?;
    let climb = bounded(four.climb, 1, 10_000)?;
    let descent = bounded(four.descent, 1, 10_000)?;
    Some(Band {
        top: top.unsigned_abs() as u32,
        speed,
        climb,
        descent,
    })
}

// Whether each value is a list of exactly four whole numbers.
fn are_numbers(values: &[Value]) -> bool
    ensures { result ≡ is_some (each_of as_numbers (items_view values.now)) }
{
    for value in values {
        let Some(four) = four(value) else {
            return false;
        };
        if !are_whole(&four) {
            return false;
        }
    }
    true
}

// The band that a value is.
fn band(value: &Value) -> Option<Band>
    ensures { result ≡ as_band (view value.now) }
{
    band_of(&four(value)?)
}

// The bands that the values are, unless one of them is none.
fn bands_of(alloc: Global, values: &[Value]) -> Result<Option<Bands>, Memory>
    ensures { IfOk result (λ bands. bands ≡ each_of as_band (items_view values.now)) }
{
    let mut bands = Bands::make(alloc)?;
    for value in values {
        let Some(band) = band(value) else {
            return Ok(None);
        };
        bands.push(band)?;
    }
    Ok(Some(bands))
}

// Whether there are 1 to 8 bands.
fn are_few(bands: &Bands) -> bool
    ensures { result ≡ are_few bands.now }
{
    let count = bands.items().len();
    1 <= count && count <= 8
}

/// The bands at a key, 1 to 8, each of four numbers within their bounds.
#[tactic(auto, unfolding(mt_base::specs::Checks::check_answer))]
pub(crate) fn bands(
    alloc: Global,
    fields: &Fields,
    key: Key,
) -> Result<Result<Bands, Fault>, Memory>
    ensures { IfOk result (λ found. IsValueRead found (check_answer (there key (as_list_of as_numbers) (members fields.now)))
        (check_answer (Range key, is_some (read_at key as_bands (members fields.now)))) (unwrap_or (read_at key as_bands (members fields.now)) [])) }
{
    let Ok(values) = fields.list(key_text(key)) else {
        return Ok(Err(Fault::Form(key)));
    };
    if !are_numbers(values) {
        return Ok(Err(Fault::Form(key)));
    }
    match bands_of(alloc, values)? {
        Some(bands) if are_few(&bands) => Ok(Ok(bands)),
        _ => Ok(Err(Fault::Range(key))),
    }
}
