//! The fields of a line, each read once.
//!
//! A line is refused for the first field of a wrong kind, and only where there is none for the first value outside its bounds. So a reading goes on
//! past a fault, keeps the first of each pass, and gives some value in the place of one that is refused.
ghost use Rattle.std.specs.Prelude.{◌≡◌, ◌≤◌, ◌≤ℤ◌, ◌+ℤ◌, ◌*ℤ◌, ◌&&◌, int_le, ⊤, pos, [], ◌∷◌, true, false, Bool, Result, Ok, IfOk, IfSome, is_some, unwrap_or};
ghost use Rattle.serde_json.specs.Find.{as_bool};
ghost use Rattle.mt_base.specs.Checks.{check_answer, next};
ghost use Rattle.mt_base.specs.declared.role.Role.TheVariants.{Feed};
ghost use Rattle.mt_json.specs.Field.{as_whole};
ghost use Rattle.mt_json.specs.Shown.{members};
ghost use Rattle.mt_read.specs.Bands.{as_bands, as_numbers};
ghost use Rattle.mt_read.specs.Corners.{as_corners};
ghost use Rattle.mt_read.specs.Corners.{as_numbers as as_pair_of_numbers};
ghost use Rattle.mt_read.specs.declared.key.Fault.{Fault};
ghost use Rattle.mt_read.specs.declared.key.Fault.TheVariants.{Range};
ghost use Rattle.mt_read.specs.declared.key.Key.TheVariants as key;
ghost use Rattle.mt_read.specs.Field.{as_call, as_fix, as_list_of, as_role, as_type, bound, count, count_if_there, first_of_two, form_check, is_of, may, must_have, number, read_at, second_of_two};
ghost use Rattle.mt_read.specs.Line.{who_bounds, who_fields, who_in};
ghost use Rattle.mt_read.specs.Private.FieldReading.{IsValueRead, ReadsOn, Reads, with_fault};
ghost use Rattle.mt_read.specs.Rules.{rule_bound};
ghost use Rattle.mt_read.specs.Table.{rvsm_field, rvsm_in};

use crate::bands::bands;
use crate::corners::corners;
use crate::field::{callsign, direct, fix_name, flag, role, stands, type_name};
use crate::key::{Fault, Key, key_text};
use crate::origin::{Origin, is_line};
use crate::request::Sender;
use crate::route::route;
use mt_base::{Bands, Callsign, Corners, FixName, Role, Route, RuleName, TypeName};
use mt_json::{Bad, Fields};
use mt_memory::Memory;
use std::alloc::Global;

/// A line's fields as they are read, and the first fault of each pass over them.
#[derive(Clone, Copy)]
pub(crate) struct FieldReading<'v, 'a> {
    fields: Fields<'v, 'a>,
    origin: Origin,
    form: Result<(), Fault>,
    range: Result<(), Fault>,
}

// The value after so many seconds of its gain.
fn value_after(value: &i64, gain: &i64, seconds: u32) -> i128
    ensures { result ≡ value.now +ℤ gain.now *ℤ pos seconds }
{
    i128::from(*value) + i128::from(*gain) * i128::from(seconds)
}

// Whether a number is within bounds.
fn is_bounded(number: &i128, low: i64, high: i64) -> bool
    ensures { result ≡ (int_le low number.now && int_le number.now high) }
{
    i128::from(low) <= *number && *number <= i128::from(high)
}

impl<'v, 'a> FieldReading<'v, 'a> {
    /// Nothing is read yet.
    pub(crate) fn of(fields: &Fields<'v, 'a>, origin: Origin) -> FieldReading<'v, 'a>
        ensures { result ≡ record { fields = fields.now; origin = origin; form = Ok (tt {0}); range = Ok (tt {0}) } }
    {
        FieldReading {
            fields: *fields,
            origin,
            form: Ok(()),
            range: Ok(()),
        }
    }

    /// The first fault, if any.
    pub(crate) fn faults(&self) -> Result<(), Fault>
        ensures { result ≡ next self.now.form self.now.range }
    {
        self.form.and(self.range)
    }

    /// A fault, which stands in its pass where none stood.
    pub(crate) fn refuse(&mut self, fault: Fault)
        ensures { self.new ≡ with_fault fault self.old }
    {
        match fault {
            Fault::Form(_) if self.form.is_ok() => self.form = Err(fault),
            Fault::Range(_) if self.range.is_ok() => self.range = Err(fault),
            _ => {}
        }
    }

    // The value that was found; else its fault is kept.
    fn kept<T: Drop>(&mut self, found: Result<T, Fault>) -> Option<T>
        ensures { (kind : Result ⊤ Fault) (bounds : Result ⊤ Fault) (x : T) → IsValueRead found kind bounds x → ReadsOn self.old self.new kind bounds (result ≡ Some x) }
    {
        match found {
            Ok(value) => Some(value),
            Err(fault) => {
                self.refuse(fault);
                None
            }
        }
    }

    /// A callsign.
    pub(crate) fn callsign(&mut self, key: Key) -> Callsign
        ensures { Reads self.old self.new (must_have key as_call ∷ []) (λ _. []) (λ ms. unwrap_or (read_at key as_call ms) []) result }
    {
        let found = callsign(&self.fields, key);
        match self.kept(found) {
            Some(call) => call,
            None => Callsign::of(b"NONE").unwrap(),
        }
    }

    /// The name of a fix.
    pub(crate) fn fix_name(&mut self, key: Key) -> FixName
        ensures { Reads self.old self.new (must_have key as_fix ∷ []) (λ _. []) (λ ms. unwrap_or (read_at key as_fix ms) []) result }
    {
        let found = fix_name(&self.fields, key);
        match self.kept(found) {
            Some(name) => name,
            None => FixName::of(b"NONE").unwrap(),
        }
    }

    /// The name of a type.
    pub(crate) fn type_name(&mut self, key: Key) -> TypeName
        ensures { Reads self.old self.new (must_have key as_type ∷ []) (λ _. []) (λ ms. unwrap_or (read_at key as_type ms) []) result }
    {
        let found = type_name(&self.fields, key);
        match self.kept(found) {
            Some(name) => name,
            None => TypeName::of(b"NONE").unwrap(),
        }
    }

    /// A role.
    pub(crate) fn role(&mut self, key: Key) -> Role
        ensures { Reads self.old self.new (must_have key as_role ∷ []) (λ _. []) (λ ms. unwrap_or (read_at key as_role ms) Feed) result }
    {
        let found = role(&self.fields, key);
        self.kept(found).unwrap_or(Role::Feed)
    }

    /// The names of fixes.
    pub(crate) fn route(&mut self, alloc: Global, key: Key) -> Result<Route, Memory>
        ensures { IfOk result (Reads self.old self.new (must_have key (as_list_of as_fix) ∷ []) (λ _. []) (λ ms. unwrap_or (read_at key (as_list_of as_fix) ms) [])) }
    {
        let found = route(alloc, &self.fields, key)?;
        match self.kept(found) {
            Some(route) => Ok(route),
            None => Route::make(alloc),
        }
    }

    /// Bands, 1 to 8, each of four numbers within their bounds.
    pub(crate) fn bands(&mut self, alloc: Global, key: Key) -> Result<Bands, Memory>
        ensures { IfOk result (Reads self.old self.new (must_have key (as_list_of as_numbers) ∷ []) (λ ms. (Range key, is_some (read_at key as_bands ms)) ∷ [])
            (λ ms. unwrap_or (read_at key as_bands ms) [])) }
    {
        let found = bands(alloc, &self.fields, key)?;
        match self.kept(found) {
            Some(bands) => Ok(bands),
            None => Bands::make(alloc),
        }
    }

    /// Corners, 3 to 16, each in the plane.
    pub(crate) fn corners(&mut self, alloc: Global, key: Key) -> Result<Corners, Memory>
        ensures { IfOk result (Reads self.old self.new (must_have key (as_list_of as_pair_of_numbers) ∷ [])
            (λ ms. (Range key, is_some (read_at key as_corners ms)) ∷ []) (λ ms. unwrap_or (read_at key as_corners ms) [])) }
    {
        let found = corners(alloc, &self.fields, key)?;
        match self.kept(found) {
            Some(corners) => Ok(corners),
            None => Corners::make(alloc),
        }
    }

    /// Whether an aircraft is approved for RVSM, which it is where that is absent, in an entry too.
    pub(crate) fn approval(&mut self) -> bool
        ensures { Reads self.old self.new (rvsm_field ∷ []) (λ _. []) rvsm_in result }
    {
        let found = flag(&self.fields, Key::Rvsm, true, true);
        self.kept(found).unwrap_or(true)
    }

    /// Whether another than its owner may withdraw a clearance, by default not.
    pub(crate) fn force(&mut self) -> bool
        ensures { Reads self.old self.new (may key.Force as_bool ∷ []) (λ _. []) (λ ms. unwrap_or (read_at key.Force as_bool ms) false) result }
    {
        let found = flag(&self.fields, Key::Force, is_line(self.origin), false);
        self.kept(found).unwrap_or(false)
    }

    /// The fix to fly direct to, where one is given and no level.
    pub(crate) fn direct(&mut self) -> Option<FixName>
        ensures { Reads self.old self.new (second_of_two key.Direct as_fix key.Level ∷ []) (λ _. []) (read_at key.Direct as_fix) result }
    {
        let found = direct(&self.fields);
        self.kept(found).unwrap_or(None)
    }

    // The number at a key, from `low` to `high`; none where it is refused, or where there may be none.
    #[tactic(auto, unfolding(mt_base::specs::Checks::check_answer))]
    fn number(&mut self, key: Key, may_lack: bool, low: i64, high: i64) -> Option<i64>
        requires { may_lack ≡ true → (low ≤ℤ pos 0) × (pos 0 ≤ℤ high) }
        ensures goes { ReadsOn self.old self.new (check_answer (form_check key may_lack true (is_of as_whole) (members self.old.fields)))
            (check_answer (bound key low high (number key (members self.old.fields)))) (result ≡ read_at key as_whole (members self.old.fields)) }
        ensures bounded { IfSome result (λ n. (low ≤ℤ n) × (n ≤ℤ high)) }
    {
        match self.fields.whole(key_text(key), low, high) {
            Ok(number) => return Some(number),
            Err(Bad::Range) => self.refuse(Fault::Range(key)),
            Err(Bad::Missing) if may_lack => {}
            Err(Bad::Missing | Bad::Kind) => self.refuse(Fault::Form(key)),
        }
        None
    }

    /// A number.
    pub(crate) fn whole(&mut self, key: Key, low: i64, high: i64) -> i64
        ensures { Reads self.old self.new (must_have key as_whole ∷ []) (λ ms. bound key low high (number key ms) ∷ []) (number key) result }
    {
        self.number(key, false, low, high).unwrap_or(0)
    }

    /// A number, 0 where a line has none.
    pub(crate) fn whole_or_zero(&mut self, key: Key, low: i64, high: i64) -> i64
        requires { (low ≤ℤ pos 0) × (pos 0 ≤ℤ high) }
        ensures { Reads self.old self.new (may key as_whole ∷ []) (λ ms. bound key low high (number key ms) ∷ []) (number key) result }
    {
        self.number(key, is_line(self.origin), low, high)
            .unwrap_or(0)
    }

    /// What a line sets a rule to.
    pub(crate) fn rule(&mut self, name: RuleName) -> Option<i64>
        ensures { Reads self.old self.new (may (key.Rule name) as_whole ∷ []) (λ ms. rule_bound ms name ∷ []) (read_at (key.Rule name) as_whole) result }
    {
        self.number(Key::Rule(name), is_line(self.origin), i64::MIN, i64::MAX)
    }

    // The same of a number that isn't below 0.
    fn natural(&mut self, key: Key, may_lack: bool, low: u32, high: u32) -> Option<u32>
        requires { may_lack ≡ true → low ≡ 0 }
        ensures goes { ReadsOn self.old self.new (check_answer (form_check key may_lack true (is_of as_whole) (members self.old.fields)))
            (check_answer (bound key (pos low) (pos high) (number key (members self.old.fields)))) (result ≡ count_if_there key (members self.old.fields)) }
        ensures bounded { IfSome result (λ n. n ≤ high) }
    {
        let number = self.number(key, may_lack, i64::from(low), i64::from(high))?;
        Some(number.unsigned_abs() as u32)
    }

    /// A number that isn't below 0.
    pub(crate) fn count(&mut self, key: Key, low: u32, high: u32) -> u32
        ensures reads { Reads self.old self.new (must_have key as_whole ∷ []) (λ ms. bound key (pos low) (pos high) (number key ms) ∷ []) (count key) result }
        ensures bounded { result ≤ high }
    {
        self.natural(key, false, low, high).unwrap_or(0)
    }

    /// A number up to `high`, 0 where a line has none.
    pub(crate) fn count_or_zero(&mut self, key: Key, high: u32) -> u32
        ensures { Reads self.old self.new (may key as_whole ∷ []) (λ ms. bound key (pos 0) (pos high) (number key ms) ∷ []) (count key) result }
    {
        self.natural(key, is_line(self.origin), 0, high)
            .unwrap_or(0)
    }

    /// A number up to `high`, where a line has one.
    pub(crate) fn count_or_none(&mut self, key: Key, high: u32) -> Option<u32>
        ensures { Reads self.old self.new (may key as_whole ∷ []) (λ ms. bound key (pos 0) (pos high) (number key ms) ∷ []) (count_if_there key) result }
    {
        self.natural(key, is_line(self.origin), 0, high)
    }

    /// A level, which may be absent only where a fix is given.
    pub(crate) fn level(&mut self) -> u32
        ensures { Reads self.old self.new (first_of_two key.Level as_whole key.Direct ∷ []) (λ ms. bound key.Level (pos 0) (pos 600) (number key.Level ms) ∷ [])
            (count key.Level) result }
    {
        let may_lack = stands(&self.fields, Key::Direct);
        self.natural(Key::Level, may_lack, 0, 600).unwrap_or(0)
    }

    /// A value is within bounds after so many seconds of its gain.
    #[tactic(auto, unfolding(mt_base::specs::Checks::check_answer))]
    pub(crate) fn ends(
        &mut self,
        key: Key,
        value: &i64,
        gain: &i64,
        seconds: u32,
        low: i64,
        high: i64,
    )
        ensures { Reads {A = ⊤} self.old self.new [] (λ _. bound key low high (value.now +ℤ gain.now *ℤ pos seconds) ∷ []) (λ _. tt {0}) (tt {0}) }
    {
        if !is_bounded(&value_after(value, gain, seconds), low, high) {
            self.refuse(Fault::Range(key));
        }
    }

    /// Who asks: in a script from 0 to 15 and by default 0, in an entry from 0 to 2^32 - 1; 0 where no field says so.
    pub(crate) fn actor(&mut self) -> u32
        ensures { Reads self.old self.new (who_fields self.old.origin) (who_bounds self.old.origin) (who_in self.old.origin) result }
    {
        match self.origin {
            Origin::Line(Sender::Replay) => self.count_or_zero(Key::Who, 15),
            Origin::Line(Sender::Feed | Sender::Position | Sender::Plain) => 0,
            Origin::Entry => self.count(Key::Who, 0, u32::MAX),
        }
    }
}
