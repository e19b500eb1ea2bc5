ghost use Rattle.std.specs.Prelude.{◌≡◌, ◌≤◌, ◌++◌, IfOk, OnOk};
ghost use Rattle.mt_base.specs.Advice.{level_up_to, levels_beside, levels_near};

use mt_base::{Clearance, Memory};
use std::alloc::Global;

/// Puts a level after the other clearances, where it isn't above the ceiling.
fn put_level(list: &mut Vec<Clearance>, ceiling: u32, level: u32) -> Result<(), Memory>
    ensures { OnOk result (list.new.items ≡ list.old.items ++ level_up_to ceiling level) }
{
    if level <= ceiling {
        list.push(Clearance::Level(level))?;
    }
    Ok(())
}

/// Puts the level so much above a level after the other clearances, then the one so much below it where that is 0 or more.
fn put_levels(list: &mut Vec<Clearance>, ceiling: u32, level: u32, step: u32) -> Result<(), Memory>
    requires { (level ≤ 600) × (step ≤ 40) }
    ensures { OnOk result (list.new.items ≡ list.old.items ++ levels_beside ceiling level step) }
{
    put_level(list, ceiling, level + step)?;
    if step <= level {
        put_level(list, ceiling, level - step)?;
    }
    Ok(())
}

/// The levels 10, 20, 30 and 40 above and below a level, from 0 up to the ceiling.
pub(crate) fn levels_near(alloc: Global, ceiling: u32, level: u32) -> Result<Vec<Clearance>, Memory>
    requires { level ≤ 600 }
    ensures { IfOk result (λ list. list.items ≡ levels_near ceiling level) }
{
    let mut list = Vec::new(alloc);
    put_levels(&mut list, ceiling, level, 10)?;
    put_levels(&mut list, ceiling, level, 20)?;
    put_levels(&mut list, ceiling, level, 30)?;
    put_levels(&mut list, ceiling, level, 40)?;
    Ok(list)
}
