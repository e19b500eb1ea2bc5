//! Made histories on a desk and in a plain state, which computes each answer from nothing: both decide, try, advise and publish the same.
ghost use Rattle.std.specs.Thread.{IsSync};
ghost use Rattle.mt_base.specs.Bounds.{AreWithinBounds, IsAskedFor, IsBoundedClearance, IsBoundedCommand};
ghost use Rattle.mt_base.specs.Tables.{setup_with};
ghost use Rattle.mt_change.specs.Sound.{IsSoundState};
ghost use Rattle.mt_desk.specs.Desk.{IsSeatOfDesk};
ghost use Rattle.mt_top_checks.specs.Same.{IsSameHand};

use super::filing::close_both;
use super::made::{Draw, some_call, some_clearance, some_command};
use super::opening::opened;
use crate::tables::shared_tables;
use mt_base::{Callsign, Clearance, Command, Conflicts, Entered, Hits, Refusal, Rules, Tally};
use mt_board::{Answer, Ask, Board, No, Probed};
use mt_desk::Hand;
use mt_io::OpenGate;
use mt_machine::{Plain, decide, hits, plain_advice};
use mt_plain::all_pairs;
use mt_tables::Tables;
use std::alloc::Global;
use std::process::Abort;
use std::sync::Wait;
use std::thread::Threads;

/// How many commands a history is made of.
const COMMANDS: u32 = 300;

/// How much there was to compare.
#[derive(Clone, Copy)]
struct Compared {
    hits: usize,
    advised: usize,
    conflicts: usize,
}

impl Compared {
    const NOTHING: Compared = Compared {
        hits: 0,
        advised: 0,
        conflicts: 0,
    };

    /// With as much of another round.
    fn with(&self, round: Compared) -> Compared {
        Compared {
            hits: self.hits.saturating_add(round.hits),
            advised: self.advised.saturating_add(round.advised),
            conflicts: self.conflicts.saturating_add(round.conflicts),
        }
    }
}

/// What a plain state decides of a command; it is entered there.
fn decided<R: Threads + Sync + Abort>(
    rt: &R,
    alloc: Global,
    tables: &Tables,
    rules: &Rules,
    plain: &mut Plain,
    who: u32,
    command: &Command,
) -> Result<Entered, Refusal>
    requires rules { AreWithinBounds rules.now }
    requires sound { IsSoundState (setup_with rules.now tables.now) plain.old }
    requires bounded { IsBoundedCommand command.now }
    ensures sound { IsSoundState (setup_with rules.entry.now tables.entry.now) plain.new }
{
    match decide(rt, alloc, tables, rules, plain, who, command).expect(rt, "memory") {
        Ok(entry) => Ok(plain.apply(tables, rules, &entry).expect(rt, "memory")),
        Err(refusal) => Err(refusal),
    }
}

/// Enters a command on both.
fn enter<R: Threads + Wait + Sync + Abort>(
    rt: &R,
    alloc: Global,
    tables: &Tables,
    rules: &Rules,
    plain: &mut Plain,
    hand: &mut Hand<'_>,
    command: Command,
)
    requires sync { IsSync R.row }
    requires rules { AreWithinBounds rules.now }
    requires sound { IsSoundState (setup_with rules.now tables.now) plain.old }
    requires bounded { IsBoundedCommand command }
    requires asked_for { IsAskedFor command }
    ensures sound { IsSoundState (setup_with rules.entry.now tables.entry.now) plain.new }
    ensures same { IsSameHand hand.old hand.new }
{
    let version = plain.version();
    let expected = decided(rt, alloc, tables, rules, plain, hand.number(), &command);
    let found = match hand.change(rt, command, &OpenGate) {
        Ok(entered) => Ok(entered),
        Err(
            No::Refused {
                refusal,
                version: at,
            },
        ) => {
            assert!(rt; at == version);
            Err(refusal)
        }
        Err(No::Memory) => panic!(rt; "no memory"),
    };
    assert!(rt; found == expected);
}

/// The plain state has these hits too, or gives this refusal too; how many hits there are.
fn same_hits<P: Probed>(
    rt: &impl Abort,
    tried: &Result<Hits, Refusal>,
    found: &Result<P, No>,
) -> usize {
    match (tried, found) {
        (Ok(hits), Ok(probe)) => {
            assert!(rt; probe.hits() == hits.items());
            hits.items().len()
        }
        (Err(expected), Err(No::Refused { refusal, .. })) => {
            assert!(rt; refusal == expected);
            0
        }
        _ => panic!(rt; "one is tried and the other isn't"),
    }
}

/// Tries a clearance on both, and says how many hits it has.
fn try_clearance<R: Threads + Wait + Sync + Abort>(
    rt: &R,
    alloc: Global,
    tables: &Tables,
    rules: &Rules,
    plain: &Plain,
    hand: &mut Hand<'_>,
    call: Callsign,
    clearance: &Clearance,
) -> usize
    requires sync { IsSync R.row }
    requires rules { AreWithinBounds rules.now }
    requires sound { IsSoundState (setup_with rules.now tables.now) plain.now }
    requires clearance { IsBoundedClearance clearance.now }
    ensures same { IsSameHand hand.old hand.new }
{
    let tried = hits(rt, alloc, tables, rules, plain, call, *clearance, None);
    let tried = tried.expect(rt, "memory");
    let found = hand.what_if(rt, call, *clearance, None, &OpenGate);
    same_hits(rt, &tried, &found)
}

/// Asks both for advice, and says how many clearances they advise.
fn advise<R: Threads + Wait + Sync + Abort>(
    rt: &R,
    alloc: Global,
    tables: &Tables,
    rules: &Rules,
    plain: &Plain,
    hand: &mut Hand<'_>,
    call: Callsign,
) -> usize
    requires sync { IsSync R.row }
    requires rules { AreWithinBounds rules.now }
    requires sound { IsSoundState (setup_with rules.now tables.now) plain.now }
    ensures same { IsSameHand hand.old hand.new }
{
    let advised = plain_advice(rt, alloc, tables, rules, plain, call);
    match (
        advised.expect(rt, "memory"),
        hand.advise(rt, call, &OpenGate),
    ) {
        (Ok(clearances), Ok(advised)) => {
            let probed = advised.probes.iter().map(|probe| probe.clearance());
            assert!(rt; probed.eq(clearances.items().iter().copied()));
            clearances.items().len()
        }
        (Err(expected), Err(No::Refused { refusal, .. })) => {
            assert!(rt; refusal == expected);
            0
        }
        _ => panic!(rt; "one is advised and the other isn't"),
    }
}

/// What is published through a hand.
fn published<R: Threads + Wait + Sync + Abort>(rt: &R, hand: &mut Hand<'_>) -> Conflicts
    requires sync { IsSync R.row }
    ensures same { IsSameHand hand.old hand.new }
{
    match hand.read(rt, &Ask::List) {
        Ok(Answer::List { conflicts, .. }) => conflicts,
        _ => panic!(rt; "no list"),
    }
}

/// Reads what is published, and tests all pairs of the plain state; how many conflicts there are.
fn list<R: Threads + Wait + Sync + Abort>(
    rt: &R,
    alloc: Global,
    tables: &Tables,
    rules: &Rules,
    plain: &Plain,
    hand: &mut Hand<'_>,
) -> usize
    requires sync { IsSync R.row }
    requires rules { AreWithinBounds rules.now }
    requires sound { IsSoundState (setup_with rules.now tables.now) plain.now }
    ensures same { IsSameHand hand.old hand.new }
{
    let strands = plain.strands(alloc, tables, rules).expect(rt, "memory");
    let mut tests = Tally::new(rt);
    let anew = all_pairs(alloc, &strands, plain.now(), rules, &mut tests).expect(rt, "memory");
    assert!(rt; published(rt, hand).items() == anew.items());
    anew.items().len()
}

/// One command, one try, one advice and one list.
fn round<R: Threads + Wait + Sync + Abort>(
    rt: &R,
    alloc: Global,
    tables: &Tables,
    rules: &Rules,
    plain: &mut Plain,
    hand: &mut Hand<'_>,
    draw: &mut Draw,
) -> Compared
    requires sync { IsSync R.row }
    requires rules { AreWithinBounds rules.now }
    requires sound { IsSoundState (setup_with rules.now tables.now) plain.old }
    ensures sound { IsSoundState (setup_with rules.entry.now tables.entry.now) plain.new }
    ensures same { IsSameHand hand.old hand.new }
{
    let command = some_command(rt, alloc, draw, plain.now());
    enter(rt, alloc, tables, rules, plain, hand, command);
    let (call, clearance) = (some_call(rt, draw), some_clearance(rt, draw));
    Compared {
        hits: try_clearance(rt, alloc, tables, rules, plain, hand, call, &clearance),
        advised: advise(rt, alloc, tables, rules, plain, hand, call),
        conflicts: list(rt, alloc, tables, rules, plain, hand),
    }
}

/// A history that a seed makes.
fn history<R: Threads + Wait + Sync + Abort>(
    rt: &R,
    alloc: Global,
    tables: &Tables,
    rules: &Rules,
    hand: &mut Hand<'_>,
    seed: u64,
) -> Compared
    requires sync { IsSync R.row }
    requires rules { AreWithinBounds rules.now }
    ensures same { IsSameHand hand.old hand.new }
{
    let mut plain = Plain::make(alloc).expect(rt, "memory");
    let mut draw = Draw::of(seed);
    let mut all = Compared::NOTHING;
    for _ in 0..COMMANDS {
        all = all.with(round(rt, alloc, tables, rules, &mut plain, hand, &mut draw));
    }
    all
}

/// A history that a seed makes, on a desk that is closed then.
fn made<R: Threads + Wait + Sync + Abort>(rt: &R, alloc: Global, seed: u64) -> Compared
    requires sync { IsSync R.row }
{
    let tables = shared_tables(rt, alloc);
    let (desk, first, second) = opened(rt, alloc);
    let mut hand = desk.hand(first);
    let all = history(rt, alloc, &tables, &Rules::usual(), &mut hand, seed);
    let first = hand.back();
    drop(close_both(desk, first, second));
    all
}

#[test]
fn a_desk_answers_as_a_plain_state_does(rt: HostRuntime) {
    let mut all = Compared::NOTHING;
    for seed in [7, 11, 23] {
        all = all.with(made(&rt, rt.alloc(), seed));
    }
    assert!(rt; all.hits > 100 && all.advised > 100 && all.conflicts > 100);
}
