ghost use Rattle.std.specs.Prelude.{◌≡◌, option_map, OnOk, IfErr, true, false, All, MatchOption, Some, None, if◌then◌else◌};
ghost use Rattle.std.specs.Str.{bytes_eq};
ghost use Rattle.serde_json.specs.Find.{as_object, get_member};
ghost use Rattle.mt_json.specs.Keys.{keys as keys_of, AreInByteOrder, is_allowed, other_key, shown_other, IsLeastOther};
ghost use Rattle.mt_json.specs.Private.Keys.{lesser, first_word, later_words, AreAmong};
ghost use Rattle.mt_json.specs.Field.{result_map, word_at, flag_at, whole_at, list_at_key};
ghost use Rattle.mt_json.specs.Shown.{members};
ghost use Rattle.mt_json.specs.View.{items_view, view};

use crate::bad::{Bad, Extra};
use crate::value::{Member, Value};

/// The members of a JSON object, to be looked into: of those with one key the last. It takes no memory.
#[derive(Clone, Copy)]
pub struct Fields<'v, 'a> {
    list: &'v [Member<'a>],
}

impl<'v, 'a> Fields<'v, 'a> {
    /// The members of `value`, or None exactly where it isn't an object.
    pub fn of(value: &'v Value<'a>) -> Option<Fields<'v, 'a>>
        ensures { option_map members result ≡ as_object (view value.now) }
    {
        match value.as_object() {
            Some(list) => Some(Fields { list }),
            None => None,
        }
    }

    /// Whether each key is allowed, else the least key, in byte order, that isn't.
    ///
    /// `keys` holds the allowed keys with one space after each. The empty key is never allowed.
    pub fn only(&self, keys: &str) -> Result<(), Extra<'a>>
        ensures exact { shown_other result ≡ other_key keys.now (members self.now) }
        ensures allowed { OnOk result
            (All (λ k. is_allowed keys.now k ≡ true) (keys_of (members self.now))) }
        ensures least { IfErr result
            (λ extra. IsLeastOther keys.now (keys_of (members self.now)) extra.key.now) }
        ensures ordered { AreInByteOrder (members self.now) }
    {
        match self.least_other(keys) {
            Some(key) => Err(Extra { key }),
            None => Ok(()),
        }
    }

    /// The text at a key, or Missing or Kind.
    pub fn word(&self, key: &str) -> Result<&'a str, Bad>
        ensures { result_map (λ s. s.now) result ≡ word_at key.now (members self.now) }
    {
        self.get(key).ok_or(Bad::Missing)?.as_str().ok_or(Bad::Kind)
    }

    /// The truth value at a key, or Missing or Kind.
    pub fn flag(&self, key: &str) -> Result<bool, Bad>
        ensures { result ≡ flag_at key.now (members self.now) }
    {
        self.get(key)
            .ok_or(Bad::Missing)?
            .as_bool()
            .ok_or(Bad::Kind)
    }

    /// The whole number at a key, from `low` to `high`, or Missing, Kind or Range.
    ///
    /// A number that serde_json doesn't hold as a whole number of 64 bits (with a point, with an exponent, beyond 64 bits, or `-0`)
    /// is Kind. A whole number above 2^63 - 1 is Range, as is any outside the bounds.
    pub fn whole(&self, key: &str, low: i64, high: i64) -> Result<i64, Bad>
        ensures { result ≡ whole_at key.now low high (members self.now) }
    {
        let number = self
            .get(key)
            .ok_or(Bad::Missing)?
            .as_number()
            .ok_or(Bad::Kind)?;
        match number.as_i64() {
            Some(n) if low <= n && n <= high => Ok(n),
            None if number.is_f64() => Err(Bad::Kind),
            _ => Err(Bad::Range),
        }
    }

    /// The items of the list at a key, or Missing or Kind.
    pub fn list(&self, key: &str) -> Result<&'v [Value<'a>], Bad>
        ensures { result_map (λ vs. items_view vs.now) result ≡ list_at_key key.now (members self.now) }
    {
        self.get(key)
            .ok_or(Bad::Missing)?
            .as_array()
            .ok_or(Bad::Kind)
    }

    // The least key that isn't allowed.
    fn least_other(&self, keys: &str) -> Option<&'a str>
        ensures { option_map (λ s. s.now) result ≡ other_key keys.now (members self.now) }
    {
        let words = keys.as_bytes();
        let mut rest = words;
        let mut least = None;
        for member in self.list {
            match met(words, rest, member.0.as_bytes()) {
                Some(after) => rest = after,
                None => least = Some(lesser(member.0, least)),
            }
        }
        least
    }

    // The value at a key.
    fn get(&self, key: &str) -> Option<&'v Value<'a>>
        ensures { option_map (λ v. view v.now) result ≡ get_member key.now (members self.now) }
    {
        let mut left = self.list.len();
        while left > 0 {
            left -= 1;
            let member = &self.list[left];
            if member.0 == key {
                return Some(&member.1);
            }
        }
        None
    }
}

// The lesser of two keys, in byte order.
fn lesser<'a>(key: &'a str, least: Option<&'a str>) -> &'a str
    ensures { result.now ≡ lesser key.now (option_map (λ s. s.now) least.entry) }
{
    match least {
        Some(least) if least < key => least,
        _ => key,
    }
}

// What stands after the word that the key is, if it is one of `words`. It is looked for first in `rest`, which stands after the word met last:
// most lines have their keys in the order of the words.
fn met<'k>(words: &'k [u8], rest: &'k [u8], key: &[u8]) -> Option<&'k [u8]>
    requires { AreAmong rest.now words.now }
    ensures { MatchOption result (is_allowed words.now key.now ≡ false)
        (λ after. (is_allowed words.now key.now ≡ true) × AreAmong after.now words.now) }
{
    match after_word(rest, key) {
        Some(after) => Some(after),
        None => after_word(words, key),
    }
}

// What stands after the word that the key is, if it is one of those that stand between the spaces of `words`.
fn after_word<'k>(words: &'k [u8], key: &[u8]) -> Option<&'k [u8]>
    ensures { MatchOption result (is_allowed words.now key.now ≡ false)
        (λ after. (is_allowed words.now key.now ≡ true) × AreAmong after.now words.now) }
{
    if key.is_empty() {
        return None;
    }
    let mut left = words;
    while !left.is_empty() {
        if let Some(after) = after_first(left, key) {
            return Some(after);
        }
        left = next_word(left);
    }
    None
}

// What stands after the first word, if that is the key.
fn after_first<'k>(words: &'k [u8], key: &[u8]) -> Option<&'k [u8]>
    ensures { option_map (λ after. after.now) result ≡ (if bytes_eq (first_word words.now) key.now then Some (later_words words.now) else None) }
{
    if !is_first(words, key) {
        return None;
    }
    let end = key.len();
    if end < words.len() {
        Some(&words[end + 1..])
    } else {
        Some(&[])
    }
}

// Whether the key is the first word.
fn is_first(words: &[u8], key: &[u8]) -> bool
    ensures { result ≡ bytes_eq (first_word words.now) key.now }
{
    let end = key.len();
    if words.len() < end {
        return false;
    }
    if words.len() > end && words[end] != b' ' {
        return false;
    }
    let mut at = 0;
    while at < end {
        let byte = words[at];
        if byte == b' ' || byte != key[at] {
            return false;
        }
        at += 1;
    }
    true
}

// What stands after the first space: nothing where there is none.
fn next_word(words: &[u8]) -> &[u8]
    ensures { result.now ≡ later_words words.now }
{
    let mut at = 0;
    while at < words.len() {
        if words[at] == b' ' {
            return &words[at + 1..];
        }
        at += 1;
    }
    &[]
}
