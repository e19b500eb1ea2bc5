ghost use Rattle.std.specs.Prelude.{◌≡◌, ℕ, ℤ, suc, pos, ◌+ℤ◌, ◌-ℤ◌, ◌*ℤ◌, ◌-◌, ◌<◌, ◌≤◌, ◌<ℤ◌, ◌≤ℤ◌, neg_ℤ, int_le};
ghost use Rattle.std.specs.Int.{int_max, int_min};
ghost use Rattle.mt_base.specs.declared.place.Place.{Place};
ghost use Rattle.mt_base.specs.declared.rules.Rules.{Rules};
ghost use Rattle.mt_base.specs.Bounds.{AreBoundedBands, IsHeight, IsWithin};
ghost use Rattle.mt_base.specs.Predictor.{band_at, climb_from, gain_with, margin_gain, row_on};
ghost use Rattle.mt_predict.specs.Manners.{IsBoundedManner, manner};
ghost use Rattle.mt_predict.specs.Private.Flying.{IsFlownRow, IsSteady};
ghost use Rattle.mt_predict.specs.Private.Manners.{IsAcross, IsBoundedLeg};

use crate::climb::LEVEL;
use mt_base::{Band, Leg, Row, Rules};

/// Flight level 600, the greatest height.
const HIGHEST: i64 = 3_600_000;

/// Heights in 1/60 of a foot, from the lowest to the highest.
#[derive(Clone, Copy)]
struct Layer {
    lowest: i64,
    highest: i64,
}

/// For how many seconds, of those left, the gain of a distance stays.
fn phase(total: i64, seconds: u32, left: u32) -> u32
    requires some { 0 < left }
    requires within { left ≤ seconds }
    requires kept { IsAcross total }
    ensures some { 0 < result }
    ensures within { result ≤ left }
    ensures same { (k : ℕ) → k < result → gain_with total seconds (left - suc k) ≡ gain_with total seconds (left - 1) }
{
    let rest = total.rem_euclid(i64::from(seconds)) as u32;
    if left <= rest { left } else { left - rest }
}

/// For how many seconds, at most so many, a margin that is to reach the greatest one gains the same.
fn growing(gain: i64, greatest: i64, margin: i64, most: u32) -> u32
    requires some { 0 < most }
    requires gain_kept { IsWithin (pos 0) (pos 10000) gain }
    requires greatest_kept { IsWithin (pos 0) (pos 600000) greatest }
    requires margin_kept { IsWithin (pos 0) greatest margin }
    ensures some { 0 < result }
    ensures within { result ≤ most }
    ensures same { let first = int_min gain (greatest -ℤ margin) in
        (k : ℕ) → k < result → int_min gain (greatest -ℤ (margin +ℤ first *ℤ pos k)) ≡ first }
{
    let room = (greatest - margin) as u32;
    let first = (gain as u32).min(room);
    if first == 0 {
        most
    } else {
        most.min(room / first)
    }
}

/// The heights of a layer that lie on the same side of a top as a height in it.
fn on_one_side(layer: Layer, top: i64, z: i64) -> Layer
    requires top { IsHeight top }
    requires lowest { IsWithin (pos 0) z layer.lowest }
    requires highest { IsWithin z (pos 3600000) layer.highest }
    ensures lowest { IsWithin (pos 0) z result.lowest }
    ensures highest { IsWithin z (pos 3600000) result.highest }
    ensures inside { (h : ℤ) → IsWithin result.lowest result.highest h → IsWithin layer.lowest layer.highest h }
    ensures side { (h : ℤ) → IsWithin result.lowest result.highest h → int_le h top ≡ int_le z top }
{
    if top < z {
        Layer {
            lowest: layer.lowest.max(top + 1),
            highest: layer.highest,
        }
    } else {
        Layer {
            lowest: layer.lowest,
            highest: layer.highest.min(top),
        }
    }
}

/// The heights around a height that lie on the same side of each band's top: the band that holds it holds them.
fn layer_around(bands: &[Band], z: i64) -> Layer
    requires bands_kept { AreBoundedBands bands.now }
    requires height { IsHeight z }
    ensures lowest { IsWithin (pos 0) z result.lowest }
    ensures highest { IsWithin z (pos 3600000) result.highest }
    ensures same { (h : ℤ) → IsWithin result.lowest result.highest h → band_at bands.now h ≡ band_at bands.now z }
{
    let mut layer = Layer {
        lowest: 0,
        highest: HIGHEST,
    };
    for band in bands {
        layer = on_one_side(layer, LEVEL * i64::from(band.top), z);
    }
    layer
}

/// How far a climb or a descent goes on at its rate from a height: each second begins in the layer and ends no further than a level.
fn reach(layer: Layer, to: i64, z: i64, climb: i64) -> u32
    requires to { IsHeight to }
    requires lowest { IsWithin (pos 0) z layer.lowest }
    requires highest { IsWithin z (pos 3600000) layer.highest }
    requires rate { IsWithin (neg_ℤ (pos 10000)) (pos 10000) climb }
    requires up { pos 0 <ℤ climb → (z +ℤ climb) ≤ℤ to }
    requires down { climb ≤ℤ pos 0 → to ≤ℤ (z +ℤ climb) }
    ensures up { pos 0 <ℤ climb → pos result ≡ int_min to (layer.highest +ℤ climb) -ℤ z }
    ensures down { climb ≤ℤ pos 0 → pos result ≡ z -ℤ int_max to (layer.lowest +ℤ climb) }
{
    if climb > 0 {
        (to.min(layer.highest + climb) - z) as u32
    } else {
        (z - to.max(layer.lowest + climb)) as u32
    }
}

/// For how many seconds, at most so many, a climb or a descent to a level stays, while the same band holds its heights.
fn climbing(bands: &[Band], level: u32, z: i64, climb: i64, most: u32) -> u32
    requires some { 0 < most }
    requires bands_kept { AreBoundedBands bands.now }
    requires level_kept { level ≤ 600 }
    requires height { IsHeight z }
    requires climbs { (rules : Rules) × (climb ≡ climb_from (manner rules bands.now level) z) }
    ensures some { 0 < result }
    ensures within { result ≤ most }
    ensures same { (rules : Rules) (k : ℕ) → k < result → climb_from (manner rules bands.now level) (z +ℤ climb *ℤ pos k) ≡ climb }
{
    if climb == 0 {
        return most;
    }
    let ahead = reach(layer_around(bands, z), LEVEL * i64::from(level), z, climb);
    most.min(ahead / climb.unsigned_abs() as u32)
}

/// For how many seconds, at most so many, a row's climb and the gain of its vertical margin stay.
fn vertical(rules: &Rules, bands: &[Band], level: u32, row: &Row, most: u32) -> u32
    requires some { 0 < most }
    requires manner_kept { IsBoundedManner (manner rules.now bands.now level) }
    requires row_kept { IsFlownRow (manner rules.now bands.now level) row.now }
    ensures some { 0 < result }
    ensures within { result ≤ most }
    ensures climb { (k : ℕ) → k < result → climb_from (manner rules.now bands.now level) (row.now.z +ℤ row.now.vz *ℤ pos k) ≡ row.now.vz }
    ensures margin { (k : ℕ) → k < result → margin_gain rules.now row.now.vz (row.now.w +ℤ margin_gain rules.now row.now.vz row.now.w *ℤ pos k)
        ≡ margin_gain rules.now row.now.vz row.now.w }
{
    let seconds = climbing(bands, level, row.z, row.vz, most);
    if row.vz == 0 {
        seconds
    } else {
        growing(rules.gv, rules.wmax, row.w, seconds)
    }
}

/// For how many of the next seconds of a leg, at most so many, the rows go on from the first one with the same gains.
pub(crate) fn steady(
    rules: &Rules,
    bands: &[Band],
    level: u32,
    leg: &Leg,
    left: u32,
    most: u32,
    row: &Row,
) -> u32
    requires some { 0 < most }
    requires within { most ≤ left }
    requires behind { left ≤ leg.now.seconds }
    requires manner_kept { IsBoundedManner (manner rules.now bands.now level) }
    requires leg_kept { IsBoundedLeg leg.now }
    requires row_kept { IsFlownRow (manner rules.now bands.now level) row.now }
    ensures some { 0 < result }
    ensures within { result ≤ most }
    ensures steady { let m = manner rules.now bands.now level in
        (a : Place) → row.now ≡ row_on m leg.now (left - 1) a → IsSteady m leg.now left row.now result }
{
    let east = phase(leg.dx, leg.seconds, left);
    let north = phase(leg.dy, leg.seconds, left);
    let grown = growing(rules.gh, rules.rmax, row.r, most);
    vertical(rules, bands, level, row, most)
        .min(grown)
        .min(east)
        .min(north)
}
