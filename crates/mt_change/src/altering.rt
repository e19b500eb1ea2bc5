//! What an entry does to the planned flight that it names.
ghost use Rattle.std.specs.Prelude.{◌≡◌, ◌≤◌, Ok, length, map};
ghost use Rattle.mt_base.specs.Bounds.{AreWithinBounds, IsBoundedClearance, IsRightAim, IsSoundCourse};
ghost use Rattle.mt_base.specs.Checks.{judged};
ghost use Rattle.mt_base.specs.Cleared.{aim_of, clearance_checks};
ghost use Rattle.mt_base.specs.Effect.{changed, committed};
ghost use Rattle.mt_base.specs.Picture.{trajectory_of};
ghost use Rattle.mt_base.specs.Tables.{setup_with};
ghost use Rattle.mt_base.specs.declared.flight.Path.TheVariants.{Planned};
ghost use Rattle.mt_change.specs.Altered.{CanAlter, IsAlterationBy, IsBoundedBesides, altered, altered_path, verdict_on_alteration};

use mt_base::{
    Aim, Base, Callsign, Clearance, Command, Course, Mark, Path, Record, Report, Rules, Second,
    Verdict,
};
use mt_predict::{cleared, renewed};
use mt_tables::Tables;
use mt_track::Strand;
use mt_watch::verdict;

/// What is altered of a planned flight.
#[derive(Clone, Copy)]
pub enum Alteration {
    /// A report is its last one; with a flag of the verdict it is due.
    Reported(Report, Verdict),
    /// It begins anew and is no longer due.
    Begun(Base),
    /// It is cleared.
    Cleared(Aim),
    /// It has a tentative clearance.
    Marked(Mark),
    /// It has none.
    Bare,
    /// Its tentative clearance is its own.
    Committed,
}

impl Alteration {
    /// The verdict on the report, where it is one.
    pub fn verdict(&self) -> Option<Verdict>
        ensures { result ≡ verdict_on_alteration self.now }
    {
        match self {
            Alteration::Reported(_, verdict) => Some(*verdict),
            _ => None,
        }
    }

    /// Alters a course.
    pub fn alter(&self, course: &mut Course)
        ensures { course.new ≡ altered self.now course.old }
    {
        match self {
            Alteration::Reported(report, verdict) => {
                course.last = Some(*report);
                course.due = course.due || verdict.is_flagged();
            }
            Alteration::Begun(base) => {
                course.base = *base;
                course.due = false;
            }
            Alteration::Cleared(aim) => {
                course.base = aim.base;
                course.level = aim.level;
            }
            Alteration::Marked(mark) => course.mark = Some(*mark),
            Alteration::Bare => course.mark = None,
            Alteration::Committed => commit(course),
        }
    }

    // Alters a path, where it is planned.
    fn alter_path(&self, path: &mut Path)
        ensures { path.new ≡ altered_path self.now path.old }
    {
        if let Path::Planned(course) = path {
            self.alter(course);
        }
    }

    /// Alters each planned flight of that callsign.
    pub fn alter_each(&self, flights: &mut [Record], call: Callsign)
        ensures { flights.new ≡ map (changed call (altered_path self.now)) flights.old }
    {
        for flight in flights.iter_mut() {
            if flight.call == call {
                self.alter_path(&mut flight.path);
            }
        }
    }
}

// Makes a tentative clearance the flight's own.
fn commit(course: &mut Course)
    ensures { course.new ≡ committed course.old course.old.mark }
{
    if let Some(mark) = course.mark {
        course.base = mark.base;
        course.level = mark.level;
        course.mark = None;
    }
}

// What a clearance leaves of a course of which no check fails.
fn free_aim(
    tables: &Tables,
    rules: &Rules,
    course: &Course,
    strand: &Strand,
    clearance: Clearance,
    eff: Second,
    now: Second,
) -> Aim
    requires rules { AreWithinBounds rules.now }
    requires sound { IsSoundCourse (setup_with rules.now tables.now) course.now }
    requires strand { strand.now ≡ trajectory_of (setup_with rules.now tables.now) (Planned course.now) }
    requires clearance { IsBoundedClearance clearance }
    requires early { eff ≤ 10000000 }
    requires passed { judged (clearance_checks tables.now course.now strand.now clearance eff now) (tt {0}) ≡ Ok (tt {0}) }
    ensures exact { result ≡ aim_of course.now strand.now clearance eff }
    ensures right { IsRightAim rules.now (length course.now.route) result }
{
    let Ok(aim) = cleared(tables, course, strand, clearance, eff, now) else {
        unreachable!()
    };
    aim
}

/// What a command that passed its checks at the moment `now` alters of the planned flight that it names, whose trajectory is the strand. It
/// takes no memory.
///
/// It asks that the rules are within their bounds, that the course is sound for them and the tables, and that the numbers of the command are
/// within their bounds, whatever version the probe of an acceptance names.
pub fn alteration_by(
    tables: &Tables,
    rules: &Rules,
    who: u32,
    command: &Command,
    course: &Course,
    strand: &Strand,
    now: Second,
) -> Alteration
    requires rules { AreWithinBounds rules.now }
    requires sound { IsSoundCourse (setup_with rules.now tables.now) course.now }
    requires strand { strand.now ≡ trajectory_of (setup_with rules.now tables.now) (Planned course.now) }
    requires bounded { IsBoundedBesides command.now }
    requires early { now ≤ 10000000 }
    requires can { CanAlter (setup_with rules.now tables.now) now course.now command.now }
    ensures { IsAlterationBy (setup_with rules.now tables.now) who command.now course.now result }
{
    match command {
        Command::Report { report, .. } => {
            Alteration::Reported(*report, verdict(strand, &course.base, report, rules))
        }
        Command::Renew { .. } => {
            let Some(base) = renewed(rules, course, strand) else {
                unreachable!()
            };
            Alteration::Begun(base)
        }
        Command::Clear { clearance, eff, .. } => {
            let eff = eff.unwrap_or(0);
            Alteration::Cleared(free_aim(tables, rules, course, strand, *clearance, eff, now))
        }
        Command::Accept { clearance, eff, .. } => {
            Alteration::Cleared(free_aim(tables, rules, course, strand, *clearance, *eff, now))
        }
        Command::Tentative { clearance, eff, .. } => {
            let eff = eff.unwrap_or(0);
            let aim = free_aim(tables, rules, course, strand, *clearance, eff, now);
            Alteration::Marked(Mark {
                owner: who,
                base: aim.base,
                level: aim.level,
            })
        }
        Command::Withdraw { .. } => Alteration::Bare,
        Command::Commit { .. } => Alteration::Committed,
        Command::Plan { .. }
        | Command::External { .. }
        | Command::Drop { .. }
        | Command::Tick { .. } => unreachable!(),
    }
}
