//! Clearances that are tried, entered, marked as tentative or accepted: `probe`, `clear`, `tentative` and `accept`.
ghost use Rattle.std.specs.Prelude.{◌≡◌};
ghost use Rattle.mt_read.specs.Field.{count_if_there};
ghost use Rattle.mt_read.specs.Private.FieldReading.{Reads, ReadsRow};
ghost use Rattle.mt_read.specs.Table.{call_in, change_layout, clearance_bounds, clearance_fields, clearance_in, clearance_to, entry_layout, layout_of};
ghost use Rattle.mt_read.specs.declared.key.Key.TheVariants as key;
ghost use Rattle.mt_read.specs.declared.word.Change.TheVariants as change;
ghost use Rattle.mt_read.specs.declared.word.EntryWord.TheVariants.{Accepted};
ghost use Rattle.mt_read.specs.declared.word.Word.TheVariants as word;

use crate::key::Key;
use crate::reading::FieldReading;
use crate::request::Request;
use mt_base::{Callsign, Clearance, Command, FixName, Second};

// A clearance: whose, which, and from when it holds.
#[derive(Clone, Copy)]
struct Cleared {
    call: Callsign,
    clearance: Clearance,
    eff: Option<Second>,
}

fn clearance_to(direct: Option<FixName>, level: u32) -> Clearance
    ensures { result ≡ clearance_to direct level }
{
    match direct {
        Some(fix) => Clearance::Direct(fix),
        None => Clearance::Level(level),
    }
}

// The fields of a clearance.
fn read_clearance(reading: &mut FieldReading) -> Cleared
    ensures { Reads reading.old reading.new clearance_fields clearance_bounds
        (λ ms. record { call = call_in ms; clearance = clearance_in ms; eff = count_if_there key.Eff ms }) result }
{
    let call = reading.callsign(Key::Call);
    let level = reading.level();
    let direct = reading.direct();
    let eff = reading.count_or_none(Key::Eff, 10_000_000);
    Cleared {
        call,
        clearance: clearance_to(direct, level),
        eff,
    }
}

/// `probe`.
pub(crate) fn probe_line(reading: &mut FieldReading) -> Request
    ensures { ReadsRow reading.old reading.new (layout_of word.Probe) result }
{
    let Cleared {
        call,
        clearance,
        eff,
    } = read_clearance(reading);
    Request::Probe {
        call,
        clearance,
        eff,
    }
}

/// `clear`.
pub(crate) fn clear_line(reading: &mut FieldReading) -> Command
    ensures { ReadsRow reading.old reading.new (change_layout change.Clear) result }
{
    let Cleared {
        call,
        clearance,
        eff,
    } = read_clearance(reading);
    Command::Clear {
        call,
        clearance,
        eff,
    }
}

/// `tentative`.
pub(crate) fn tentative_line(reading: &mut FieldReading) -> Command
    ensures { ReadsRow reading.old reading.new (change_layout change.Tentative) result }
{
    let Cleared {
        call,
        clearance,
        eff,
    } = read_clearance(reading);
    Command::Tentative {
        call,
        clearance,
        eff,
    }
}

/// `accept`, in a line.
pub(crate) fn accept_line(reading: &mut FieldReading) -> Request
    ensures { ReadsRow reading.old reading.new (layout_of word.Accept) result }
{
    let probe = reading.whole(Key::Probe, 1, i64::MAX);
    Request::Accept {
        probe: probe.unsigned_abs(),
    }
}

/// `accept`, in an entry: the clearance that was accepted, and the version of its probe.
pub(crate) fn accepted_entry(reading: &mut FieldReading) -> Command
    ensures { ReadsRow reading.old reading.new (entry_layout Accepted) result }
{
    let Cleared {
        call,
        clearance,
        eff,
    } = read_clearance(reading);
    let probed = reading.count(Key::Probed, 0, 4_194_304);
    Command::Accept {
        call,
        clearance,
        eff: eff.unwrap_or(0),
        probed: u64::from(probed),
    }
}
