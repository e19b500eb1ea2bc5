ghost use Rattle.std.specs.Prelude.{◌≡◌, ◌-◌, ◌/◌, pos, All, drop};
ghost use Rattle.mt_base.specs.Bounds.{IsWithin};
ghost use Rattle.mt_cover.specs.Layer.{IsLayerKept};
ghost use Rattle.mt_cover.specs.Private.InPlane.{IsBoxInPlane};
ghost use Rattle.mt_cover.specs.declared.sliced.Slice.{Slice as Cut};
ghost use Rattle.mt_cover.specs.Sliced.{AreSlices, Have};
ghost use Rattle.mt_cover.specs.Private.Parts.{slice_around};

use crate::bounding_box::{BoundingBox, Extent, wider};
use crate::layer::Layer;
use mt_base::Second;
use std::marker::Model;

/// Where a trajectory is in some of its seconds, made wider on each side by its greatest horizontal margin there and half of the horizontal
/// minimum; and its heights there, with the vertical margin below and above.
#[derive(Clone, Copy)]
pub struct Slice {
    /// Positions east.
    pub x: Extent,
    /// Positions north.
    pub y: Extent,
    /// Heights.
    pub layer: Layer,
}

/// How many seconds a slice has, but the last one, which may be shorter.
pub const SLICE: Second = 128;

/// The slices of a trajectory, one for each 128 seconds from its start, the last of which may be shorter.
#[derive(Drop)]
pub struct Slices {
    pub(crate) from: Second,
    pub(crate) to: Second,
    pub(crate) rvsm: bool,
    pub(crate) list: Vec<Slice>,
}

impl Model for Slices {
    ghost use Rattle.mt_cover.specs.Sliced.{AreSlices, Sliced};

    ghost Value = { Sliced };

    ghost view = { λ s. record { from = s.from; to = s.to; rvsm = s.rvsm; list = s.list.items } };

    ghost invariant = { λ s. AreSlices (record { from = s.from; to = s.to; rvsm = s.rvsm; list = s.list.items }) };
}

impl Slices {
    /// The first second. What all slices keep is said here too.
    pub fn from(&self) -> Second
        ensures from { result ≡ self.now.from }
        ensures kept { AreSlices self.now }
    {
        self.from
    }

    /// They are slices. It does nothing.
    pub fn keeps(&self)
        ensures { AreSlices self.now }
    {
        self.from();
    }

    /// The second after the last one.
    pub fn to(&self) -> Second
        ensures { result ≡ self.now.to }
    {
        self.to
    }

    /// Whether the aircraft is approved for RVSM.
    pub fn rvsm(&self) -> bool
        ensures { result ≡ self.now.rvsm }
    {
        self.rvsm
    }

    /// The slices from that of a second on.
    pub fn slices_from(&self, k: Second) -> &[Slice]
        requires { Have self.now k }
        ensures is { result.now ≡ drop ((k - self.now.from) / 128) self.now.list }
        ensures kept { All (λ (slice : Cut). IsLayerKept slice.layer) result.now }
    {
        &self.list[((k - self.from) / SLICE) as usize..]
    }
}

/// The slice of a box, with half of the horizontal minimum.
pub(crate) fn slice_around(half: i64, bounds: BoundingBox) -> Slice
    requires half_kept { IsWithin (pos 1) (pos 36000) half }
    requires kept { IsBoxInPlane bounds }
    ensures is { result ≡ slice_around half bounds }
    ensures kept { IsLayerKept result.layer }
{
    let by = bounds.margin + half;
    Slice {
        x: wider(bounds.x, by),
        y: wider(bounds.y, by),
        layer: bounds.layer,
    }
}
