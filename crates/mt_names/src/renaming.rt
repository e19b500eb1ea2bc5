//! What is left of the callsigns where a flight comes to a place, goes from it, or is replaced there.
ghost use Rattle.std.specs.Prelude.{Some, IfOk};
ghost use Rattle.std.specs.Arc.{arc_value};
ghost use Rattle.mt_names.specs.Naming.{IsRenaming};

use crate::names::Names;
use mt_base::{Callsign, Memory};
use std::alloc::Global;
use std::sync::Arc;

// The callsigns with one in the stead of another, at the same place.
fn exchanged(
    alloc: Global,
    names: &Names,
    slot: u32,
    old: Callsign,
    new: Callsign,
) -> Result<Names, Memory>
    ensures { IfOk result (λ after. IsRenaming names.now slot (Some old) (Some new) after) }
{
    names.without(alloc, old)?.with(alloc, new, slot)
}

/// The callsigns once `new` stands at a place in the stead of `old`, each a callsign or none. Where it is the same callsign, nothing is copied.
/// The old list stays.
pub fn renamed(
    alloc: Global,
    names: &Arc<Names>,
    slot: u32,
    old: Option<Callsign>,
    new: Option<Callsign>,
) -> Result<Arc<Names>, Memory>
    ensures { IfOk result (λ after. IsRenaming (arc_value names.now) slot old new (arc_value after)) }
{
    if old == new {
        return Ok(Arc::try_clone(names)?);
    }
    let after = match (old, new) {
        (Some(old), Some(new)) => exchanged(alloc, names, slot, old, new)?,
        (Some(old), None) => names.without(alloc, old)?,
        (None, Some(new)) => names.with(alloc, new, slot)?,
        (None, None) => unreachable!(),
    };
    Ok(Arc::new(alloc, after)?)
}
