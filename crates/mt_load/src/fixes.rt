ghost use Rattle.std.specs.Prelude.{◌≡◌, ◌<◌, ◌++◌, IfOk, OnOk};
ghost use Rattle.mt_load.specs.Input.{bands, coordinate, each_below, fix, kind_name};
ghost use Rattle.mt_read.specs.declared.request.Request.TheVariants as requests;

use crate::names::{fix_name, kind_name};
use mt_base::{Band, Bands, Memory};
use mt_read::Request;
use std::alloc::Global;

/// How many fixes there are.
const FIXES: u32 = 64;

/// Where a column lies, or a place in a column, in 1/3600 of a nautical mile.
fn coordinate(place: u32) -> i64
    requires { place < 8 }
    ensures { result ≡ coordinate place }
{
    115_200 * i64::from(place) - 403_200
}

/// The request that sets a fix.
fn fix(number: u32) -> Request
    requires { number < 64 }
    ensures { result ≡ fix number }
{
    Request::Fix {
        name: fix_name(number),
        x: coordinate(number / 8),
        y: coordinate(number % 8),
    }
}

/// Puts the requests that set the fixes after others.
pub(crate) fn put_fixes(list: &mut Vec<Request>) -> Result<(), Memory>
    ensures { OnOk result (list.new.items ≡ list.old.items ++ each_below fix 64) }
{
    for number in 0..FIXES {
        list.push(fix(number))?;
    }
    Ok(())
}

/// The bands of the type of all flights.
fn bands(alloc: Global) -> Result<Bands, Memory>
    ensures { IfOk result (λ list. list ≡ bands) }
{
    let low = Band {
        top: 245,
        speed: 400,
        climb: 2_000,
        descent: 2_000,
    };
    let high = Band {
        top: 410,
        speed: 480,
        climb: 2_100,
        descent: 2_100,
    };
    Ok(Bands::of(Vec::from_slice(alloc, &[low, high])?))
}

/// The request that sets the type of all flights.
pub(crate) fn type_line(alloc: Global) -> Result<Request, Memory>
    ensures { IfOk result (λ request. request ≡ requests.TypeLine kind_name bands) }
{
    Ok(Request::TypeLine {
        name: kind_name(),
        bands: bands(alloc)?,
    })
}
