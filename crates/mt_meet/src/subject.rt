//! A trajectory for which others are looked for.
ghost use Rattle.std.specs.Prelude.{◌≡◌, ◌≤◌, ◌<◌, ◌-◌, ◌/◌, ℕ, IfOk};
ghost use Rattle.std.specs.Arc.{arc_value};
ghost use Rattle.std.specs.Int.{bit_at};
ghost use Rattle.mt_base.specs.Bounds.{AreWithinBounds};
ghost use Rattle.mt_cover.specs.Sliced.{AreSlices, Have, HaveWindow};
ghost use Rattle.mt_meet.specs.Private.Boxing.{AreGuarded};
ghost use Rattle.mt_meet.specs.Searching.{part_at, windows_a_part};

use crate::steps::{Bounds, guarded};
use crate::windows::{WINDOWS, windows_of};
use mt_base::{Memory, Rules, Second};
use mt_cover::{CLOCK_WINDOW, Slices};
use std::alloc::Global;
use std::marker::Model;
use std::sync::Arc;

/// How many parts the time of a trajectory has for which others are looked for: as many as a mark has bits.
const PARTS: u32 = 16;

/// In which steps a trajectory is in a window of the clock. Of the window's number the remainder by 64 is kept.
#[derive(Clone, Copy)]
pub(crate) struct Window {
    /// The remainder.
    pub(crate) remainder: u32,
    /// The bit of its part of the trajectory's time.
    pub(crate) part: u16,
    /// The steps.
    pub(crate) bounds: Bounds,
}

/// The slices of a trajectory for which others are looked for, and the steps in which they lie, window by window of the clock, with heights that
/// reach farther by the vertical minimum.
#[derive(Drop)]
pub struct Subject {
    pub(crate) rules: Rules,
    pub(crate) slices: Arc<Slices>,
    pub(crate) windows: Vec<Window>,
}

impl Model for Subject {
    ghost use Rattle.std.specs.Arc.{arc_value};
    ghost use Rattle.mt_base.specs.Bounds.{AreWithinBounds};
    ghost use Rattle.mt_meet.specs.Meeting.{Asked};
    ghost use Rattle.mt_meet.specs.Private.Boxing.{AreGuarded};

    ghost Value = { Asked };

    ghost view = { λ s. record { rules = s.rules; sliced = arc_value s.slices } };

    ghost invariant = { λ s. AreWithinBounds s.rules × AreGuarded s.rules (arc_value s.slices) s.windows.items };
}

// How many windows each of 16 parts has that have all windows of some slices.
fn windows_a_part(slices: &Slices) -> u32
    ensures is { result ≡ windows_a_part slices.now }
    ensures few { result ≤ 4 }
{
    slices.keeps();
    (slices.to().div_ceil(CLOCK_WINDOW) - slices.from() / CLOCK_WINDOW).div_ceil(PARTS)
}

// The bit of the part to which a window belongs.
fn part_of(slices: &Slices, window: u32) -> u16
    requires { HaveWindow slices.now window }
    ensures { bit_at result ((window - slices.now.from / 256) / windows_a_part slices.now) ≡ 1 }
{
    1 << ((window - slices.from() / CLOCK_WINDOW) / windows_a_part(slices))
}

// The steps of some slices in each window that has some of their seconds, with heights that reach farther.
fn guarded_windows(alloc: Global, rules: &Rules, slices: &Slices) -> Result<Vec<Window>, Memory>
    requires { AreWithinBounds rules.now }
    ensures { IfOk result (λ windows. AreGuarded rules.now slices.now windows.items) }
{
    let mut windows = Vec::new(alloc);
    let (first, past) = windows_of(slices);
    for window in first..past {
        windows.push(Window {
            remainder: window % WINDOWS,
            part: part_of(slices, window),
            bounds: guarded(rules, slices.rvsm(), &slices.over_window(window)),
        })?;
    }
    Ok(windows)
}

impl Subject {
    /// That of some slices, which it shares. It asks that the rules are within their bounds.
    pub fn of(alloc: Global, rules: &Rules, slices: Arc<Slices>) -> Result<Subject, Memory>
        requires { AreWithinBounds rules.now }
        ensures { IfOk result (λ subject. subject ≡ record { rules = rules.now; sliced = arc_value slices }) }
    {
        let windows = guarded_windows(alloc, rules, &slices)?;
        Ok(Subject {
            rules: *rules,
            slices,
            windows,
        })
    }

    /// Its slices. What is so of every subject is said here too.
    pub fn slices(&self) -> &Slices
        ensures slices { result.now ≡ self.now.sliced }
        ensures kept { AreSlices self.now.sliced }
        ensures rules { AreWithinBounds self.now.rules }
    {
        self.slices.keeps();
        &self.slices
    }

    /// Between which seconds some parts of its time lie: from one on and before another.
    pub(crate) fn between(&self, parts: u16) -> (Second, Second)
        ensures { (k : ℕ) → Have self.now.sliced k → bit_at parts (part_at self.now.sliced k) ≡ 1 → (result.0 ≤ k) × (k < result.1) }
    {
        let slices = self.slices();
        let (first, each) = (slices.from() / CLOCK_WINDOW, windows_a_part(slices));
        let begin = first + each * parts.trailing_zeros();
        let end = first + each * (PARTS - parts.leading_zeros());
        (CLOCK_WINDOW * begin, CLOCK_WINDOW * end)
    }
}
