ghost use Rattle.std.specs.Prelude.{◌≡◌, ◌<◌, ◌≤◌, ◌++◌, [], ◌∷◌, IfOk, OnOk};
ghost use Rattle.mt_load.specs.Draws.{state_after};
ghost use Rattle.mt_load.specs.Input.{each_below, fix_name, other_than, plan_from, plan_of};

use crate::draws::Draws;
use crate::names::{callsign, fix_name, kind_name};
use mt_base::{Command, Memory, Route};
use mt_read::Request;
use std::alloc::Global;

/// The number that passes one over, of a number drawn from one fewer.
fn other_than(passed_over: u32, number: u32) -> u32
    requires { number < 63 }
    ensures value { result ≡ other_than passed_over number }
    ensures below { result < 64 }
{
    if passed_over <= number {
        number + 1
    } else {
        number
    }
}

/// The route from one fix to another.
fn route(alloc: Global, first: u32, second: u32) -> Result<Route, Memory>
    requires { (first < 64) × (second < 64) }
    ensures { IfOk result (λ route. route ≡ fix_name first ∷ fix_name second ∷ []) }
{
    let names = [fix_name(first), fix_name(second)];
    Ok(Route::of(Vec::from_slice(alloc, &names)?))
}

/// The plan of a flight, by the next four draws.
fn plan(alloc: Global, draws: &mut Draws, number: u32) -> Result<Command, Memory>
    requires { number < 10000 }
    ensures plan { IfOk result (λ command. command ≡ plan_from number draws.old) }
    ensures draws { draws.new ≡ state_after 4 draws.old }
{
    let first = draws.draw(64) as u32;
    let second = other_than(first, draws.draw(63) as u32);
    let level = 300 + 10 * draws.draw(10) as u32;
    let at = draws.draw(1_200) as u32;
    Ok(Command::Plan {
        call: callsign(number),
        kind: kind_name(),
        route: route(alloc, first, second)?,
        at,
        from: level,
        level,
        rvsm: true,
    })
}

/// Puts the requests that file the flights after others.
pub(crate) fn put_plans(
    alloc: Global,
    list: &mut Vec<Request>,
    flights: u32,
    number: u64,
) -> Result<(), Memory>
    requires { flights ≤ 10000 }
    ensures { OnOk result (list.new.items ≡ list.old.items ++ each_below (plan_of number) flights) }
{
    let mut draws = Draws::from(number);
    for flight in 0..flights {
        list.push(Request::Change(plan(alloc, &mut draws, flight)?))?;
    }
    Ok(())
}
