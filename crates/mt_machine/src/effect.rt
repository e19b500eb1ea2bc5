//! What an entry leaves.
ghost use Rattle.std.specs.Prelude.{◌≡◌, ◌∷◌, ◌++◌, [], IfOk, OnOk, OnErr, Ok};
ghost use Rattle.mt_base.specs.Bounds.{AreWithinBounds, IsBoundedCommand};
ghost use Rattle.mt_base.specs.Decision.{IsDecided, filled};
ghost use Rattle.mt_base.specs.Effect.{effect, entered_by, now_after, records_after, verdict_in};
ghost use Rattle.mt_change.specs.Altered.{Alters};
ghost use Rattle.mt_change.specs.Sound.{IsSoundState, PassesChecks};
ghost use Rattle.mt_base.specs.Tables.{setup_with};

use crate::plain::Plain;
use mt_base::{Command, Entered, Entry, Kind, Memory, Path, Record, Rules, Verdict};
use mt_change::{alteration_by, planned_course};
use mt_predict::predict;
use mt_tables::Tables;

impl Plain {
    /// The effect of an entry, and what it is answered: the version with it, and of a report the verdict on it in the state before. On an
    /// error the state stays as it was.
    ///
    /// It asks that the entry is what is decided of its command on this state, with its numbers within their bounds.
    pub fn apply(
        &mut self,
        tables: &Tables,
        rules: &Rules,
        entry: &Entry,
    ) -> Result<Entered, Memory>
        requires rules { AreWithinBounds rules.now }
        requires sound { IsSoundState (setup_with rules.now tables.now) self.old }
        requires bounded { IsBoundedCommand entry.now.command }
        requires decided { IsDecided (setup_with rules.now tables.now) self.old entry.now.who entry.now.command (Ok entry.now) }
        ensures entered { IfOk result (λ entered. entered ≡ entered_by (setup_with rules.now tables.now) self.old entry.now) }
        ensures ok { OnOk result (self.new ≡ effect (setup_with rules.now tables.now) self.old entry.now) }
        ensures sound { OnOk result (IsSoundState (setup_with rules.now tables.now) self.new) }
        ensures err { OnErr result (self.new ≡ self.old) }
    {
        let verdict = self.change(tables, rules, entry.who, &entry.command)?;
        self.version += 1;
        Ok(Entered {
            version: self.version,
            verdict,
        })
    }

    // What a command leaves of the flights and the moment; the verdict on a report.
    fn change(
        &mut self,
        tables: &Tables,
        rules: &Rules,
        who: u32,
        command: &Command,
    ) -> Result<Option<Verdict>, Memory>
        requires rules { AreWithinBounds rules.now }
        requires sound { IsSoundState (setup_with rules.now tables.now) self.old }
        requires bounded { IsBoundedCommand command.now }
        requires passed { PassesChecks (setup_with rules.now tables.now) self.old who command.now }
        requires filled { command.now ≡ filled self.old.now command.now }
        ensures ok { OnOk result (self.new ≡ record self.old {
          now = now_after command.now self.old.now;
          records = records_after (setup_with rules.now tables.now) who command.now self.old.records;
        }) }
        ensures verdict { IfOk result (λ verdict. verdict ≡ verdict_in (setup_with rules.now tables.now) self.old command.now) }
        ensures sound { OnOk result (IsSoundState (setup_with rules.now tables.now) self.new) }
        ensures err { OnErr result (self.new ≡ self.old) }
    {
        match command {
            Command::Plan {
                call,
                kind,
                route,
                at,
                from,
                level,
                rvsm,
            } => {
                let route = route.copy(self.alloc)?;
                let course = planned_course(tables, rules, *kind, route, *at, *from, *level, *rvsm);
                let path = Path::Planned(course);
                self.file(Record { call: *call, path })?;
                Ok(None)
            }
            Command::External { call, straight } => {
                let path = Path::Outer(*straight);
                self.file(Record { call: *call, path })?;
                Ok(None)
            }
            Command::Drop { call } => {
                self.flights.retain(|flight| flight.call != *call);
                Ok(None)
            }
            Command::Tick { now } => {
                self.moment = *now;
                Ok(None)
            }
            _ => self.alter(tables, rules, who, command),
        }
    }

    // Changes the planned flight that a command names; the verdict on a report.
    fn alter(
        &mut self,
        tables: &Tables,
        rules: &Rules,
        who: u32,
        command: &Command,
    ) -> Result<Option<Verdict>, Memory>
        requires rules { AreWithinBounds rules.now }
        requires sound { IsSoundState (setup_with rules.now tables.now) self.old }
        requires bounded { IsBoundedCommand command.now }
        requires passed { PassesChecks (setup_with rules.now tables.now) self.old who command.now }
        requires filled { command.now ≡ filled self.old.now command.now }
        requires alters { Alters command.now }
        ensures ok { OnOk result (self.new ≡ record self.old {
          records = records_after (setup_with rules.now tables.now) who command.now self.old.records;
        }) }
        ensures verdict { IfOk result (λ verdict. verdict ≡ verdict_in (setup_with rules.now tables.now) self.old command.now) }
        ensures sound { OnOk result (IsSoundState (setup_with rules.now tables.now) self.new) }
        ensures err { OnErr result (self.new ≡ self.old) }
    {
        let Some(call) = command.call() else {
            unreachable!()
        };
        let Some(flight) = self.flight(call) else {
            unreachable!()
        };
        let Path::Planned(course) = &flight.path else {
            unreachable!()
        };
        let now = self.moment;
        let strand = predict(self.alloc, tables, rules, course, Kind::Actual)?;
        let alteration = alteration_by(tables, rules, who, command, course, &strand, now);
        alteration.alter_each(&mut self.flights, call);
        Ok(alteration.verdict())
    }

    // Puts a flight after the others.
    fn file(&mut self, flight: Record) -> Result<(), Memory>
        ensures ok { OnOk result (self.new ≡ record self.old { records = self.old.records ++ flight ∷ [] }) }
        ensures err { OnErr result (self.new ≡ self.old) }
    {
        self.flights.push(flight)?;
        Ok(())
    }
}
