ghost use Rattle.std.specs.Prelude.{◌≡◌, ◌++◌, suc, map, drop, take, OnOk};
ghost use Rattle.mt_base.specs.declared.clearance.Clearance.TheVariants.{Direct};
ghost use Rattle.mt_base.specs.Advice.{each_once};

use mt_base::{Clearance, FixName, Memory, Route};

/// How many places of the route are looked at.
const AHEAD: usize = 8;

/// The names at the next eight places of a route after a place.
pub(crate) fn next_names(route: &Route, place: u32) -> &[FixName]
    ensures { result.now ≡ take 8 (drop (suc place) route.now) }
{
    let names = route.items();
    let first = (place as usize + 1).min(names.len());
    let ahead = &names[first..];
    &ahead[..AHEAD.min(ahead.len())]
}

/// Puts clearances direct to some fixes after the others, each fix once.
pub(crate) fn put_directs(list: &mut Vec<Clearance>, names: &[FixName]) -> Result<(), Memory>
    ensures { OnOk result (list.new.items ≡ list.old.items ++ map Direct (each_once names.now)) }
{
    for i in 0..names.len() {
        let name = names[i];
        if !names[..i].contains(&name) {
            list.push(Clearance::Direct(name))?;
        }
    }
    Ok(())
}
