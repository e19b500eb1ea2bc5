ghost use Rattle.std.specs.Prelude.{◌≡◌, ◌≤◌, All, IfOk};
ghost use Rattle.mt_base.specs.declared.rules.Rules.{Rules};
ghost use Rattle.mt_read.specs.Bounded.{IsBoundedRequest};
ghost use Rattle.mt_load.specs.Input.{inputs};

use crate::fixes::{put_fixes, type_line};
use crate::plans::put_plans;
use mt_base::{Command, Memory};
use mt_read::Request;
use std::alloc::Global;

/// The second that the moment is moved to once all flights are filed.
const FIRST_TICK: u32 = 60;

/// The input of so many flights, 1 to 1,024, that is made from a number: the same one at each call.
///
/// In this order it sets 64 fixes, `F00` to `F77`, 32 nautical miles apart in a square, and the type `JA1`; begins with the usual rules; files
/// the flights `L0000`, `L0001` and so on, and moves the moment to second 60. For each flight two different fixes are drawn, a level, one of
/// 300, 310 and so on to 390, and a second below 1,200; all are approved for RVSM. The definition is `inputs`.
///
/// The numbers of each request are within their bounds, whatever the rules are. The one error is want of memory.
pub fn input(alloc: Global, flights: u32, number: u64) -> Result<Vec<Request>, Memory>
    requires { (1 ≤ flights) × (flights ≤ 1024) }
    ensures exact { IfOk result (λ list. list.items ≡ inputs flights number) }
    ensures bounded { (rules : Rules) → IfOk result (λ list. All (IsBoundedRequest rules) list.items) }
{
    let mut list = Vec::new(alloc);
    put_fixes(&mut list)?;
    list.push(type_line(alloc)?)?;
    list.push(Request::Begin)?;
    put_plans(alloc, &mut list, flights, number)?;
    list.push(Request::Change(Command::Tick { now: FIRST_TICK }))?;
    Ok(list)
}
