ghost use Rattle.std.specs.Prelude.{◌≡◌, ℕ, Bool, List, pos, int_lt, is_some, option_copied, not, Some, Err, IfOk, IfErr, [], ◌∷◌};
ghost use Rattle.std.specs.Option.{option_map_or};
ghost use Rattle.mt_base.specs.Checks.{judged};
ghost use Rattle.mt_base.specs.Cleared.{aim_checks, is_below_ceiling};
ghost use Rattle.mt_base.specs.Decision.{checks, has_history, has_room, is_later, route_checks};
ghost use Rattle.mt_base.specs.Tables.{bands_of, setup_with};
ghost use Rattle.mt_base.specs.WhatIf.{course_in, mark_in};
ghost use Rattle.mt_predict.specs.Looking.{HasSomeStrand, HasSomeStrandOfPlanned, checks_along, look_of, strand_in};

use crate::clearing::cleared;
use mt_base::{
    Callsign, Clearance, Command, Course, Mark, Path, Record, Refusal, Report, Route, Rules,
    Second, TypeName, must,
};
use mt_tables::Tables;
use mt_track::Strand;

/// What a decision looks at.
#[derive(Clone, Copy)]
pub struct Looked<'a> {
    /// The moment.
    pub now: Second,
    /// How many flights are held.
    pub held: u32,
    /// How many entries are held.
    pub entries: u64,
    /// The flight that the command names, where it is in the picture.
    pub flight: Option<&'a Record>,
    /// The trajectory that it flies, where the command is a clearance or a tentative clearance of a planned flight.
    pub strand: Option<&'a Strand>,
}

/// The first refusal of an actor's command, in the order in which its checks are made, or none. It takes no memory.
///
/// Only a withdrawal looks at the actor `who`. For a clearance or a tentative clearance of a planned flight that is there it asks that a
/// trajectory is at hand, and answers as if the flight flew that.
pub fn judge(
    tables: &Tables,
    rules: &Rules,
    looked: &Looked,
    who: u32,
    command: &Command,
) -> Result<(), Refusal>
    requires strand { HasSomeStrand looked.now command.now }
    ensures { result
        ≡ judged (checks_along (setup_with rules.now tables.now) (strand_in looked.entry.now) (look_of looked.entry.now) who command.now) (tt {0}) }
{
    match command {
        Command::Plan {
            kind,
            route,
            from,
            level,
            ..
        } => check_plan(tables, rules, looked, *kind, route, (*from, *level)),
        Command::External { .. } => check_external(rules, looked),
        Command::Drop { call } => check_drop(rules, looked, *call),
        Command::Report { call, report } => check_report(rules, looked, *call, report),
        Command::Tick { now } => check_tick(rules, looked, *now),
        Command::Renew { call } => check_renewal(rules, looked, *call),
        Command::Clear {
            call,
            clearance,
            eff,
        } => {
            let eff = eff.unwrap_or(looked.now);
            check_clearance(tables, rules, looked, *call, *clearance, eff)
        }
        Command::Accept {
            call,
            clearance,
            eff,
            ..
        } => check_clearance(tables, rules, looked, *call, *clearance, *eff),
        Command::Tentative {
            call,
            clearance,
            eff,
        } => {
            let eff = eff.unwrap_or(looked.now);
            check_tentative(tables, rules, looked, *call, *clearance, eff)
        }
        Command::Withdraw { call, force } => check_withdrawal(rules, looked, who, *call, *force),
        Command::Commit { call } => check_commitment(rules, looked, *call),
    }
}

// What is checked of a plan, whatever its callsign and its second.
fn check_plan(
    tables: &Tables,
    rules: &Rules,
    looked: &Looked,
    kind: TypeName,
    route: &Route,
    levels: (u32, u32),
) -> Result<(), Refusal>
    ensures { (who : ℕ) (call : List ℕ) (at : ℕ) (rvsm : Bool) → result
        ≡ judged (checks (setup_with rules.now tables.now) (look_of looked.entry.now) who (Command.Plan call kind route.now at levels.0 levels.1 rvsm)) (tt {0}) }
{
    must(!is_held(looked), Refusal::HeldCall)?;
    must(is_known(tables, kind), Refusal::UnknownType(kind))?;
    check_route(tables, route)?;
    check_rest(tables, rules, looked, kind, levels)
}

// What is checked of an external flight, whatever it is.
fn check_external(rules: &Rules, looked: &Looked) -> Result<(), Refusal>
    ensures { result ≡ judged ((Refusal.HeldCall, not (is_some (look_of looked.entry.now).flight))
        ∷ (Refusal.Full, has_room rules.now (look_of looked.entry.now)) ∷ (Refusal.HistoryFull, has_history rules.now (look_of looked.entry.now)) ∷ []) (tt {0}) }
{
    must(!is_held(looked), Refusal::HeldCall)?;
    check_room(rules, looked)
}

// What is checked of a flight's removal.
fn check_drop(rules: &Rules, looked: &Looked, call: Callsign) -> Result<(), Refusal>
    ensures { (who : ℕ) (tables : Tables) → result ≡ judged (checks (setup_with rules.now tables) (look_of looked.entry.now) who (Command.Drop call)) (tt {0}) }
{
    must(is_held(looked), Refusal::UnknownCall(call))?;
    must(has_history(rules, looked), Refusal::HistoryFull)
}

// What is checked of a new moment.
fn check_tick(rules: &Rules, looked: &Looked, now: Second) -> Result<(), Refusal>
    ensures { (who : ℕ) (tables : Tables) → result ≡ judged (checks (setup_with rules.now tables) (look_of looked.entry.now) who (Command.Tick now)) (tt {0}) }
{
    must(looked.now < now, Refusal::Backward)?;
    must(has_history(rules, looked), Refusal::HistoryFull)
}

// What is checked of a report.
fn check_report(
    rules: &Rules,
    looked: &Looked,
    call: Callsign,
    report: &Report,
) -> Result<(), Refusal>
    ensures { (who : ℕ) (tables : Tables) → result
        ≡ judged (checks (setup_with rules.now tables) (look_of looked.entry.now) who (Command.Report call report.now)) (tt {0}) }
{
    let course = planned(looked, call)?;
    must(is_later(course, report.at), Refusal::Old)?;
    must(report.at <= looked.now, Refusal::Future)?;
    must(has_history(rules, looked), Refusal::HistoryFull)
}

// What is checked of a renewal.
fn check_renewal(rules: &Rules, looked: &Looked, call: Callsign) -> Result<(), Refusal>
    ensures { (who : ℕ) (tables : Tables) → result ≡ judged (checks (setup_with rules.now tables) (look_of looked.entry.now) who (Command.Renew call)) (tt {0}) }
{
    let course = planned(looked, call)?;
    must(course.due, Refusal::NotDue)?;
    must(has_history(rules, looked), Refusal::HistoryFull)
}

// What is checked of a clearance that holds from second `eff` on.
fn check_clearance(
    tables: &Tables,
    rules: &Rules,
    looked: &Looked,
    call: Callsign,
    clearance: Clearance,
    eff: Second,
) -> Result<(), Refusal>
    requires { HasSomeStrandOfPlanned looked.now }
    ensures { (who : ℕ) → result
        ≡ judged (checks_along (setup_with rules.now tables.now) (strand_in looked.entry.now) (look_of looked.entry.now) who
        (Command.Clear call clearance (Some eff))) (tt {0}) }
{
    check_aim(tables, rules, looked, call, clearance, eff)?;
    must(eff <= looked.now, Refusal::Future)?;
    must(has_history(rules, looked), Refusal::HistoryFull)
}

// What is checked of a tentative clearance that holds from second `eff` on.
fn check_tentative(
    tables: &Tables,
    rules: &Rules,
    looked: &Looked,
    call: Callsign,
    clearance: Clearance,
    eff: Second,
) -> Result<(), Refusal>
    requires { HasSomeStrandOfPlanned looked.now }
    ensures { (who : ℕ) → result
        ≡ judged (checks_along (setup_with rules.now tables.now) (strand_in looked.entry.now) (look_of looked.entry.now) who
        (Command.Tentative call clearance (Some eff))) (tt {0}) }
{
    check_aim(tables, rules, looked, call, clearance, eff)?;
    if let Some(mark) = mark_in(looked) {
        return Err(Refusal::TentativeHeld { owner: mark.owner });
    }
    must(eff <= looked.now, Refusal::Future)?;
    must(has_history(rules, looked), Refusal::HistoryFull)
}

// What is checked of the withdrawal of a tentative clearance by an actor.
fn check_withdrawal(
    rules: &Rules,
    looked: &Looked,
    who: u32,
    call: Callsign,
    force: bool,
) -> Result<(), Refusal>
    ensures { (tables : Tables) → result
        ≡ judged (checks (setup_with rules.now tables) (look_of looked.entry.now) who (Command.Withdraw call force)) (tt {0}) }
{
    let mark = marked(looked, call)?;
    must(force || mark.owner == who, Refusal::NotOwner)?;
    must(has_history(rules, looked), Refusal::HistoryFull)
}

// What is checked where a tentative clearance becomes the flight's own.
fn check_commitment(rules: &Rules, looked: &Looked, call: Callsign) -> Result<(), Refusal>
    ensures { (who : ℕ) (tables : Tables) → result ≡ judged (checks (setup_with rules.now tables) (look_of looked.entry.now) who (Command.Commit call)) (tt {0}) }
{
    marked(looked, call)?;
    must(has_history(rules, looked), Refusal::HistoryFull)
}

// What is checked of any clearance before the moment: that the flight is there and planned, and what it leaves.
fn check_aim(
    tables: &Tables,
    rules: &Rules,
    looked: &Looked,
    call: Callsign,
    clearance: Clearance,
    eff: Second,
) -> Result<(), Refusal>
    requires { HasSomeStrandOfPlanned looked.now }
    ensures { result ≡ judged ((Refusal.UnknownCall call, is_some (look_of looked.entry.now).flight)
        ∷ (Refusal.Fixed, is_some (course_in (look_of looked.entry.now).flight))
        ∷ option_map_or (λ course. aim_checks tables.now course (strand_in looked.entry.now) clearance eff) (course_in (look_of looked.entry.now).flight) []) (tt {0}) }
{
    let course = planned(looked, call)?;
    let Some(strand) = looked.strand else {
        unreachable!()
    };
    cleared(tables, course, strand, clearance, eff, eff)?;
    Ok(())
}

// The course of the flight that the command names; or the refusal of one that is not there, or not planned.
fn planned<'a>(looked: &Looked<'a>, call: Callsign) -> Result<&'a Course, Refusal>
    ensures ok { IfOk result (λ course. course_in (look_of looked.entry.now).flight ≡ Some course.now) }
    ensures err { IfErr result (λ refusal. judged ((Refusal.UnknownCall call, is_some (look_of looked.entry.now).flight)
        ∷ (Refusal.Fixed, is_some (course_in (look_of looked.entry.now).flight)) ∷ []) (tt {0}) ≡ Err refusal) }
{
    let Some(flight) = looked.flight else {
        return Err(Refusal::UnknownCall(call));
    };
    let Path::Planned(course) = &flight.path else {
        return Err(Refusal::Fixed);
    };
    Ok(course)
}

// The tentative clearance of the flight that the command names; or the refusal of one that is not there, or has none.
fn marked<'a>(looked: &Looked<'a>, call: Callsign) -> Result<&'a Mark, Refusal>
    ensures ok { IfOk result (λ mark. mark_in (look_of looked.entry.now).flight ≡ Some mark.now) }
    ensures err { IfErr result (λ refusal. judged ((Refusal.UnknownCall call, is_some (look_of looked.entry.now).flight)
        ∷ (Refusal.NoTentative, is_some (mark_in (look_of looked.entry.now).flight)) ∷ []) (tt {0}) ≡ Err refusal) }
{
    must(is_held(looked), Refusal::UnknownCall(call))?;
    let Some(mark) = mark_in(looked) else {
        return Err(Refusal::NoTentative);
    };
    Ok(mark)
}

// The tentative clearance of the flight that the command names, where it is there and has one.
fn mark_in<'a>(looked: &Looked<'a>) -> Option<&'a Mark>
    ensures { option_copied result ≡ mark_in (look_of looked.entry.now).flight }
{
    match &looked.flight?.path {
        Path::Planned(course) => course.mark.as_ref(),
        Path::Outer(_) => None,
    }
}

// Whether a report of that second is later than the last one.
fn is_later(course: &Course, at: Second) -> bool
    ensures { result ≡ is_later course.now.last at }
{
    match course.last {
        Some(last) => last.at < at,
        None => true,
    }
}

// Whether the flight that the command names is in the picture.
fn is_held(looked: &Looked) -> bool
    ensures { result ≡ is_some (look_of looked.entry.now).flight }
{
    looked.flight.is_some()
}

// Whether a type has that name.
fn is_known(tables: &Tables, kind: TypeName) -> bool
    ensures { result ≡ is_some (bands_of tables.now kind) }
{
    tables.ceiling(kind).is_some()
}

// Whether the names are a route.
fn check_route(tables: &Tables, route: &Route) -> Result<(), Refusal>
    ensures { result ≡ judged (route_checks tables.now route.now) (tt {0}) }
{
    tables.route_check(route)?;
    Ok(())
}

// What is checked of a plan after its route: its first and its cleared level, and that there is room.
fn check_rest(
    tables: &Tables,
    rules: &Rules,
    looked: &Looked,
    kind: TypeName,
    levels: (u32, u32),
) -> Result<(), Refusal>
    ensures { result ≡ judged ((Refusal.Ceiling, is_below_ceiling tables.now kind levels.0) ∷ (Refusal.Ceiling, is_below_ceiling tables.now kind levels.1)
        ∷ (Refusal.Full, has_room rules.now (look_of looked.entry.now)) ∷ (Refusal.HistoryFull, has_history rules.now (look_of looked.entry.now)) ∷ []) (tt {0}) }
{
    let (from, level) = levels;
    must(is_below_ceiling(tables, kind, from), Refusal::Ceiling)?;
    must(is_below_ceiling(tables, kind, level), Refusal::Ceiling)?;
    check_room(rules, looked)
}

// Whether there is room for one more flight, and for one more entry.
fn check_room(rules: &Rules, looked: &Looked) -> Result<(), Refusal>
    ensures { result ≡ judged ((Refusal.Full, has_room rules.now (look_of looked.entry.now)) ∷ (Refusal.HistoryFull, has_history rules.now (look_of looked.entry.now)) ∷ []) (tt {0}) }
{
    must(has_room(rules, looked), Refusal::Full)?;
    must(has_history(rules, looked), Refusal::HistoryFull)
}

fn has_room(rules: &Rules, looked: &Looked) -> bool
    ensures { result ≡ has_room rules.now (look_of looked.entry.now) }
{
    is_fewer(u64::from(looked.held), &rules.flights)
}

fn has_history(rules: &Rules, looked: &Looked) -> bool
    ensures { result ≡ has_history rules.now (look_of looked.entry.now) }
{
    is_fewer(looked.entries, &rules.history)
}

// Whether a number is below the most.
fn is_fewer(number: u64, most: &i64) -> bool
    ensures { result ≡ int_lt (pos number) most.now }
{
    *most >= 0 && number < most.unsigned_abs()
}

// Whether the level is not above the ceiling of the type.
pub(crate) fn is_below_ceiling(tables: &Tables, kind: TypeName, level: u32) -> bool
    ensures { result ≡ is_below_ceiling tables.now kind level }
{
    level <= tables.ceiling(kind).unwrap_or(0)
}
