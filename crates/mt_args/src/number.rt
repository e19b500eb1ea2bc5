//! Numbers among the words.
ghost use Rattle.std.specs.Prelude.{◌≡◌, ◌≤◌, IfOk, MatchResult, Some, None};
ghost use Rattle.std.specs.Str.{all_ascii_digits};
ghost use Rattle.mt_args.specs.Task.{number_in, once};

use crate::task::Usage;

/// The most digits that a number may have.
const DIGITS: usize = 10;

/// The number of an option that is set at most once: 1 to 10 digits, within its bounds.
pub fn once(is_set: bool, value: &str, low: u64, high: u64) -> Result<u64, Usage>
    ensures number { MatchResult result (λ number. once is_set low high value.now ≡ Some number) (λ _. once is_set low high value.now ≡ None) }
    ensures bound { IfOk result (λ number. (low ≤ number) × (number ≤ high)) }
{
    if is_set {
        return Err(Usage);
    }
    number(value, low, high).ok_or(Usage)
}

// The number that a text of 1 to 10 digits writes, where it is within the bounds.
fn number(text: &str, low: u64, high: u64) -> Option<u64>
    ensures { result ≡ number_in low high text.now }
{
    if text.is_empty() || text.len() > DIGITS || !are_digits(text.as_bytes()) {
        return None;
    }
    let Ok(number) = text.parse::<u64>() else {
        return None;
    };
    if number < low || high < number {
        return None;
    }
    Some(number)
}

// Whether all bytes are digits.
fn are_digits(bytes: &[u8]) -> bool
    ensures { result ≡ all_ascii_digits bytes.now }
{
    let Some((byte, rest)) = bytes.split_first() else {
        return true;
    };
    byte.is_ascii_digit() && are_digits(rest)
}
