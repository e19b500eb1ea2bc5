ghost use Rattle.std.specs.Prelude.{◌≡◌, ◌≤◌, ℕ, List, [], All, unwrap_or, IfOk};
ghost use Rattle.mt_base.specs.Advice.{candidates};
ghost use Rattle.mt_base.specs.Picture.{State};
ghost use Rattle.mt_base.specs.Tables.{bands_of, ceiling_of, setup_with};
ghost use Rattle.mt_base.specs.declared.rules.Rules.{Rules};
ghost use Rattle.mt_advise.specs.Trying.{CanBeTried, FliesOn};

use crate::directs::{next_names, put_directs};
use crate::levels::levels_near;
use mt_base::{Base, Clearance, Course, Memory, TypeName};
use mt_tables::Tables;
use std::alloc::Global;

/// The ceiling of a type, in flight levels; 0 where no type has that name.
fn ceiling_of(tables: &Tables, kind: TypeName) -> u32
    ensures { result ≡ ceiling_of (unwrap_or (bands_of tables.now kind) []) }
{
    tables.ceiling(kind).unwrap_or(0)
}

/// The clearances that are tried for a flight that flies on from a base: the levels 10, 20, 30 and 40 above and below its own, from 0 up to
/// the ceiling of its type, the nearest first and each above before the one below; then direct to each of the next eight places of its route
/// after the one that it flies to, by name, each name once. There are at most sixteen.
///
/// In whatever state the flight flies on so, each of them is bounded, and no check refuses it at the moment. It asks that the flight's level is
/// at most 600, as that of a sound flight is. The definition is `candidates`.
pub fn candidates(
    alloc: Global,
    flight: &Course,
    base: &Base,
    tables: &Tables,
) -> Result<Vec<Clearance>, Memory>
    requires { flight.now.level ≤ 600 }
    ensures exact { IfOk result (λ list. list.items ≡ candidates tables.now flight.now base.now) }
    ensures tried { (rules : Rules) (s : State) (call : List ℕ) → FliesOn (setup_with rules tables.now) s call flight.now base.now
        → IfOk result (λ list. All (CanBeTried (setup_with rules tables.now) s call) list.items) }
{
    let ceiling = ceiling_of(tables, flight.kind);
    let mut list = levels_near(alloc, ceiling, flight.level)?;
    put_directs(&mut list, next_names(&flight.route, base.next))?;
    Ok(list)
}
