ghost use Rattle.std.specs.Prelude.{◌≡◌, ◌<◌};
ghost use Rattle.mt_load.specs.Input.{callsign, digit, fix_name, kind_name};

use mt_base::{Callsign, FixName, TypeName};

/// The digit of a number below 10.
fn digit(number: u32) -> u8
    requires { number < 10 }
    ensures { result ≡ digit number }
{
    b'0' + number as u8
}

/// The name of a fix: `F`, its column and its place in it.
pub(crate) fn fix_name(number: u32) -> FixName
    requires { number < 64 }
    ensures { result ≡ fix_name number }
{
    let text = [b'F', digit(number / 8), digit(number % 8)];
    FixName::of(&text).unwrap()
}

/// The callsign of a flight of the input: `L` and its number in four digits. It asks that the number is below 10,000.
pub(crate) fn callsign(number: u32) -> Callsign
    requires { number < 10000 }
    ensures { result ≡ callsign number }
{
    let text = [
        b'L',
        digit(number / 1_000),
        digit(number / 100 % 10),
        digit(number / 10 % 10),
        digit(number % 10),
    ];
    Callsign::of(&text).unwrap()
}

/// The type of all flights.
pub(crate) fn kind_name() -> TypeName
    ensures { result ≡ kind_name }
{
    TypeName::of(b"JA1").unwrap()
}
