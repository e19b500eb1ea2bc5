ghost use Rattle.std.specs.Prelude.{◌≡◌, ◌<◌, ◌≤◌, ◌++◌, length, take, drop, All, IfOk};
ghost use Rattle.mt_base.specs.Bounds.{IsBoundedRow, IsInPlane};
ghost use Rattle.mt_base.specs.Predictor.{base_place, end_after, predicted, rows_on};
ghost use Rattle.mt_predict.specs.Private.Flying.{EndAt};
ghost use Rattle.mt_predict.specs.Manners.{IsBoundedManner, IsFlownPlace, manner};
ghost use Rattle.mt_predict.specs.Private.Manners.{IsBoundedLeg};

use crate::leg::leg_to;
use crate::second::{place_at, row_on};
use crate::steady::steady;
use mt_base::{Band, Base, Leg, Memory, Place, Point, Rules};
use mt_track::{PackedRow, Segment, Strand};
use std::alloc::Global;

/// The most seconds of a trajectory.
const MOST: u32 = 14_400;

/// Puts the rows of a leg after those of a strand, as far as there is room, and answers where they end.
fn fly_leg(
    strand: &mut Strand,
    rules: &Rules,
    bands: &[Band],
    level: u32,
    leg: &Leg,
    from: Place,
) -> Result<Place, Memory>
    requires manner_kept { IsBoundedManner (manner rules.now bands.now level) }
    requires leg_kept { IsBoundedLeg leg.now }
    requires bounded { All IsBoundedRow (rows_on (manner rules.now bands.now level) leg.now leg.now.seconds from) }
    requires early { strand.old.start ≤ 10000000 }
    requires at { EndAt strand.old.rows from }
    ensures start { strand.new.start ≡ strand.old.start }
    ensures rvsm { strand.new.rvsm ≡ strand.old.rvsm }
    ensures rows { IfOk result (λ end. strand.new.rows ≡ take 14400 (strand.old.rows ++ rows_on (manner rules.now bands.now level) leg.now leg.now.seconds from)) }
    ensures at { IfOk result (λ end. EndAt strand.new.rows end) }
    ensures place { IfOk result (λ end. length strand.new.rows < 14400 → end ≡ end_after from (rows_on (manner rules.now bands.now level) leg.now leg.now.seconds from)) }
{
    let room = strand.start() + MOST - strand.end();
    let cut = leg.seconds - leg.seconds.min(room);
    let mut left = leg.seconds;
    let mut place = from;
    while left > cut {
        let row = row_on(rules, bands, level, leg, left - 1, &place);
        let seconds = steady(rules, bands, level, leg, left, left - cut, &row);
        let begin = strand.end();
        strand.push(Segment {
            from: begin,
            to: begin + seconds,
            first: PackedRow::of(&row),
        })?;
        place = place_at(&row, seconds);
        left -= seconds;
    }
    Ok(place)
}

/// The place where a trajectory begins.
fn place_of(base: &Base) -> Place
    ensures { result ≡ base_place base.now }
{
    Place {
        x: base.x,
        y: base.y,
        z: base.z,
        r: base.r,
        w: base.w,
    }
}

/// The trajectory of a flight that begins at a base, flies to the fixes of a route from its next one on, and climbs or descends to a
/// level. It ends over the last fix, or at its greatest length.
pub fn fly_route(
    alloc: Global,
    rules: &Rules,
    bands: &[Band],
    level: u32,
    fixes: &[Point],
    base: &Base,
    rvsm: bool,
) -> Result<Strand, Memory>
    requires manner_kept { IsBoundedManner (manner rules.now bands.now level) }
    requires fixes_kept { All (λ p. IsInPlane p.x p.y) fixes.now }
    requires short { length fixes.now ≤ 64 }
    requires next { base.now.next ≤ length fixes.now }
    requires early { base.now.at ≤ 10000000 }
    requires held { IsFlownPlace rules.now (base_place base.now) }
    ensures start { IfOk result (λ strand. strand.start ≡ base.now.at) }
    ensures rvsm { IfOk result (λ strand. strand.rvsm ≡ rvsm) }
    ensures rows { IfOk result (λ strand. strand.rows ≡ predicted (manner rules.now bands.now level) base.now.next (drop base.now.next fixes.now) (base_place base.now)) }
{
    let mut strand = Strand::empty(alloc, base.at, rvsm);
    let mut place = place_of(base);
    let mut number = base.next;
    while (number as usize) < fixes.len() {
        let leg = leg_to(bands, number, &fixes[number as usize], &place);
        place = fly_leg(&mut strand, rules, bands, level, &leg, place)?;
        if strand.end() - base.at == MOST {
            return Ok(strand);
        }
        number += 1;
    }
    Ok(strand)
}
