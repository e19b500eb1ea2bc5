ghost use Rattle.std.specs.Prelude.{◌≤◌, OnOk, IfOk, All, Contains, ◌↔◌};
ghost use Rattle.mt_base.specs.Area.{IsBoundedArea};
ghost use Rattle.mt_base.specs.declared.area.Pierced.{Pierced};
ghost use Rattle.mt_base.specs.Pierced.{IsPiercedBy};
ghost use Rattle.mt_track.specs.Named.{named};
ghost use Rattle.mt_area.specs.Private.Telling.{AddsPierced, IsPiercedByOne};

use crate::piercing::pierce;
use crate::volume::{lie_apart, volume_over};
use mt_base::{Area, Memory, Pierced, Pierces, Second, WINDOW};
use mt_track::Item;
use std::alloc::Global;

/// Tells of one trajectory and one area, where it passes through it in the window.
fn add_passage(item: &Item, area: &Area, now: Second, found: &mut Pierces) -> Result<(), Memory>
    requires kept { IsBoundedArea area.now }
    requires early { now ≤ 10000000 }
    ensures { OnOk result (AddsPierced (IsPiercedBy now area.now (named item.now)) found.old found.new) }
{
    let Some((first, last)) = pierce(&item.strand, area, now, now + WINDOW) else {
        return Ok(());
    };
    found.push(Pierced {
        first,
        call: item.call,
        kind: item.kind,
        area: area.name,
        last,
    })
}

/// What is told of one trajectory and all areas.
pub(crate) fn passages(
    alloc: Global,
    item: &Item,
    areas: &[Area],
    now: Second,
) -> Result<Pierces, Memory>
    requires kept { All IsBoundedArea areas.now }
    requires early { now ≤ 10000000 }
    ensures { IfOk result (λ found. (p : Pierced) → Contains found p ↔ IsPiercedByOne now areas.now (named item.now) p) }
{
    let volume = volume_over(&item.strand, now, now + WINDOW);
    let mut found = Pierces::make(alloc)?;
    for area in areas {
        if lie_apart(area, &volume) {
            continue;
        }
        add_passage(item, area, now, &mut found)?;
    }
    Ok(found)
}
