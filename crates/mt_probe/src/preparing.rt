//! How a command that makes a trajectory is prepared.
ghost use Rattle.std.specs.Prelude.{◌≡◌, ◌↔◌, Ok, Some, true, is_some, option_and_then, option_map, IfOk, IfErr, IsTrue};
ghost use Rattle.std.specs.Arc.{arc_value};
ghost use Rattle.mt_base.specs.Bounds.{IsSoundFlight};
ghost use Rattle.mt_base.specs.Checks.{judged};
ghost use Rattle.mt_base.specs.declared.command.Command.{Command};
ghost use Rattle.mt_base.specs.Decision.{checks, look_at};
ghost use Rattle.mt_base.specs.Trajectory.{Trajectory};
ghost use Rattle.mt_base.specs.Tables.{setup_with};
ghost use Rattle.mt_change.specs.Altered.{IsBoundedBesides};
ghost use Rattle.mt_cover.specs.Sliced.{slices_of};
ghost use Rattle.mt_predict.specs.Looking.{HasStrand, look_of};
ghost use Rattle.mt_probe.specs.Finds.{AreFinds};
ghost use Rattle.mt_probe.specs.Items.{WasTestedNear};
ghost use Rattle.mt_probe.specs.Prepared.{IsLeftByEntry, IsPrepOf, IsRefusedOn, IsSlotNamed, MakesStrand, WasTestedFor, judged_aside, kind_made, path_made};
ghost use Rattle.mt_probe.specs.Shot.{flight_at, state_in_shot};
ghost use Rattle.mt_probe.specs.Tests.{IsUntested};

use crate::altering::altered_flight;
use crate::finding::{Finds, find_all};
use crate::prep::Prep;
use crate::snapshot::Snapshot;
use mt_base::{Command, Kind, Memory, Path, Record, Refusal, Rules, Tally};
use mt_board::No;
use mt_change::planned_course;
use mt_cover::Slices;
use mt_predict::{Looked, judge, predict};
use mt_tables::Tables;
use mt_track::Strand;
use std::alloc::Global;
use std::sync::Arc;

/// Whether a command makes a trajectory, and so is prepared before it is entered.
pub fn makes_strand(command: &Command) -> bool
    ensures { IsTrue result ↔ MakesStrand command.now }
{
    match command {
        Command::Plan { .. }
        | Command::External { .. }
        | Command::Renew { .. }
        | Command::Clear { .. }
        | Command::Accept { .. }
        | Command::Tentative { .. }
        | Command::Commit { .. } => true,
        Command::Drop { .. }
        | Command::Report { .. }
        | Command::Tick { .. }
        | Command::Withdraw { .. } => false,
    }
}

/// The trajectory of a kind of a flight: the one that it flies, or that of its tentative clearance. It asks that the flight is sound, and that
/// it has a trajectory of that kind.
pub fn strand_of(
    alloc: Global,
    snapshot: &Snapshot,
    card: &Record,
    kind: Kind,
) -> Result<Arc<Strand>, Memory>
    requires sound { IsSoundFlight snapshot.now.setup card.now }
    requires makes { is_some (path_made snapshot.now.setup card.now kind) ≡ true }
    ensures { IfOk result (λ strand. path_made snapshot.now.setup card.now kind ≡ Some (arc_value strand)) }
{
    snapshot.keeps();
    let strand = match &card.path {
        Path::Planned(course) => {
            predict(alloc, snapshot.tables(), snapshot.rules(), course, kind)?
        }
        Path::Outer(stretch) => Strand::straight(alloc, stretch)?,
    };
    Ok(Arc::new(alloc, strand)?)
}

/// The slot of the flight that a command names; `None` exactly where it names none that is there.
pub fn slot_named(snapshot: &Snapshot, command: &Command) -> Option<u32>
    ensures { IsSlotNamed snapshot.now command.now result }
{
    snapshot.find(command.call()?)
}

// What a decision looks at, as if so many flights were held and so many entries made: the flight in a slot, or none. The trajectory that it
// flies is at hand.
fn look(snapshot: &Snapshot, slot: Option<u32>, held: u32, entries: u64) -> Looked<'_>
    ensures look { look_of result ≡ record {
      now = snapshot.now.now;
      held = held;
      entries = entries;
      flight = option_map (λ f. f.card) (option_and_then (flight_at snapshot.now) slot);
    } }
    ensures strand { (command : Command) → HasStrand snapshot.now.setup result command }
{
    snapshot.keeps();
    let now = snapshot.now();
    let Some(slot) = slot else {
        return Looked {
            now,
            held,
            entries,
            flight: None,
            strand: None,
        };
    };
    Looked {
        now,
        held,
        entries,
        flight: snapshot.flight(slot),
        strand: snapshot.path(slot, Kind::Actual),
    }
}

/// The first refusal of an actor's command on a snapshot, as if so many flights were held and so many entries made; or none.
///
/// It asks that the slot is that of the flight that the command names.
pub fn judge_on(
    snapshot: &Snapshot,
    slot: Option<u32>,
    who: u32,
    command: &Command,
    held: u32,
    entries: u64,
) -> Result<(), Refusal>
    requires { IsSlotNamed snapshot.now command.now slot }
    ensures { result ≡ judged (checks snapshot.now.setup (record (look_at (state_in_shot snapshot.now) command.now) { held = held; entries = entries })
        who command.now) (tt {0}) }
{
    let looked = look(snapshot, slot, held, entries);
    judge(snapshot.tables(), snapshot.rules(), &looked, who, command)
}

/// The flight that a command names as its entry leaves it.
///
/// It asks that the slot is that of the flight that the command names, that the command makes a trajectory, that its numbers are within their
/// bounds, whatever version the probe of an acceptance names, and that no check of it fails, but for the want of room.
pub fn left_of(
    alloc: Global,
    snapshot: &Snapshot,
    slot: Option<u32>,
    who: u32,
    command: &Command,
) -> Result<Record, Memory>
    requires named { IsSlotNamed snapshot.now command.now slot }
    requires makes { MakesStrand command.now }
    requires bounded { IsBoundedBesides command.now }
    requires passed { judged_aside snapshot.now.setup (state_in_shot snapshot.now) who command.now ≡ Ok (tt {0}) }
    ensures { IfOk result (IsLeftByEntry snapshot.now.setup (state_in_shot snapshot.now) who command.now) }
{
    snapshot.keeps();
    match command {
        Command::Plan {
            call,
            kind,
            route,
            at,
            from,
            level,
            rvsm,
        } => {
            let route = route.copy(alloc)?;
            let course = planned_course(
                snapshot.tables(),
                snapshot.rules(),
                *kind,
                route,
                *at,
                *from,
                *level,
                *rvsm,
            );
            Ok(Record {
                call: *call,
                path: Path::Planned(course),
            })
        }
        Command::External { call, straight } => Ok(Record {
            call: *call,
            path: Path::Outer(*straight),
        }),
        _ => {
            let Some(slot) = slot else { unreachable!() };
            Ok(altered_flight(alloc, snapshot, slot, who, command)?.card)
        }
    }
}

/// The flight that a command names as its entry leaves it, or the first refusal of the command, but for the want of room, at the snapshot's
/// version.
///
/// It asks that the command makes a trajectory, and that its numbers are within their bounds, whatever version the probe of an acceptance names.
pub(crate) fn leave(
    alloc: Global,
    snapshot: &Snapshot,
    who: u32,
    command: &Command,
) -> Result<Record, No>
    requires makes { MakesStrand command.now }
    requires bounded { IsBoundedBesides command.now }
    ensures left { IfOk result (IsLeftByEntry snapshot.now.setup (state_in_shot snapshot.now) who command.now) }
    ensures refused { IfErr result (IsRefusedOn snapshot.now who command.now) }
{
    let slot = slot_named(snapshot, command);
    // There is room for a flight and an entry.
    if let Err(refusal) = judge_on(snapshot, slot, who, command, 0, 0) {
        let version = snapshot.version();
        return Err(No::Refused { refusal, version });
    }
    Ok(left_of(alloc, snapshot, slot, who, command)?)
}

/// The kind of the trajectory that a command makes.
pub fn kind_made(command: &Command) -> Kind
    ensures { result ≡ kind_made command.now }
{
    match command {
        Command::Tentative { .. } => Kind::Tentative,
        _ => Kind::Actual,
    }
}

// What is prepared for a command that leaves this of the flight that it names, and makes that trajectory of it, which has these slices and with which
// these are found.
pub(crate) fn prep_with(
    snapshot: &Snapshot,
    who: u32,
    command: Command,
    card: Record,
    strand: Arc<Strand>,
    slices: Arc<Slices>,
    finds: Finds,
) -> Result<Prep, Memory>
    requires left { IsLeftByEntry snapshot.now.setup (state_in_shot snapshot.now) who command card }
    requires made { path_made snapshot.now.setup card (kind_made command) ≡ Some (arc_value strand) }
    requires sliced { arc_value slices ≡ slices_of snapshot.now.setup.rules (arc_value strand) }
    requires found { AreFinds snapshot.now.setup (state_in_shot snapshot.now) card.call (arc_value strand) finds }
    ensures { IfOk result (IsPrepOf snapshot.now who command) }
{
    snapshot.keeps();
    strand.keeps();
    Ok(Prep {
        snapshot: snapshot.share()?,
        who,
        command,
        card,
        strand,
        slices,
        finds,
    })
}

// What is prepared for a command that leaves this of the flight that it names.
fn prep_of(
    alloc: Global,
    snapshot: &Snapshot,
    who: u32,
    command: Command,
    card: Record,
    tests: &mut Tally,
) -> Result<Prep, Memory>
    requires { IsLeftByEntry snapshot.now.setup (state_in_shot snapshot.now) who command card }
    ensures prep { IfOk result (IsPrepOf snapshot.now who command) }
    ensures counted { (t : Trajectory) → path_made snapshot.now.setup card (kind_made command) ≡ Some t
        → WasTestedNear snapshot.now card.call t tests.old tests.new }
{
    snapshot.keeps();
    let strand = strand_of(alloc, snapshot, &card, kind_made(&command))?;
    let slices = snapshot.slices(&strand)?;
    let finds = find_all(alloc, snapshot, card.call, &strand, &slices, tests)?;
    prep_with(snapshot, who, command, card, strand, slices, finds)
}

/// What is prepared on a snapshot for a command that makes a trajectory: the flight as the entry leaves it, that trajectory, and what is found
/// with those of the other flights; or the first refusal of the command, at the snapshot's version. The want of room for a flight or an entry
/// refuses nothing here.
///
/// It asks that the rules and tables are those of the snapshot, and that the numbers of the command are within their bounds, whatever version
/// the probe of an acceptance names. At most two tests are made for each trajectory of another flight that is near the new one, and none where
/// the command is refused.
pub fn prepare(
    alloc: Global,
    snapshot: &Snapshot,
    _tables: &Tables,
    _rules: &Rules,
    who: u32,
    command: &Command,
    tests: &mut Tally,
) -> Result<Prep, No>
    requires same { setup_with _rules.now _tables.now ≡ snapshot.now.setup }
    requires makes { MakesStrand command.now }
    requires bounded { IsBoundedBesides command.now }
    ensures prep { IfOk result (IsPrepOf snapshot.now who command.now) }
    ensures refused { IfErr result (IsRefusedOn snapshot.now who command.now) }
    ensures counted { WasTestedFor snapshot.now who command.now tests.old tests.new }
    ensures untested { IfErr result (IsUntested tests.old tests.new) }
{
    match leave(alloc, snapshot, who, command) {
        Ok(card) => {
            let command = command.copy(alloc)?;
            Ok(prep_of(alloc, snapshot, who, command, card, tests)?)
        }
        Err(no) => Err(no),
    }
}
