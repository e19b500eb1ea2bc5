//! An entry as a value of JSON.
ghost use Rattle.mt_base.specs.declared.command.Command.TheVariants.{Accept, External, Report as reported, Tick, Withdraw};
ghost use Rattle.mt_write.specs.Entry.{clearance_members, entry_members, entry_value, whole};
ghost use Rattle.mt_write.specs.Private.Puts.{Puts};
ghost use Rattle.serde_json.specs.Data.{member, no_members, object, string};
ghost use Rattle.serde_json.specs.Written.{compact_text};
ghost use Rattle.std.specs.Prelude.{◌++◌, codes, decimal, pos, unwrap_or};

use crate::object::{Datum, put_object};
use crate::plan::{put_plan_front, put_route_on};
use crate::written::Written;
use mt_base::{Callsign, Clearance, Command, Entry, Report, Straight};
use mt_memory::Memory;

impl Written for Entry {
    ghost value = { entry_value };

    fn put(&self, out: &mut Vec<u8>) -> Result<(), Memory> {
        match &self.command {
            Command::Plan {
                call,
                kind,
                route,
                at,
                from,
                level,
                rvsm,
            } => {
                put_plan_front(out, call, *at, *from, *level)?;
                put_route_on(out, route.items(), *rvsm, kind, self.who)
            }
            Command::External { call, straight } => put_external(out, self.who, call, straight),
            Command::Drop { call } => put_call(out, call, ",\"do\":\"drop\",\"who\":", self.who),
            Command::Report { call, report } => put_report(out, self.who, call, report),
            Command::Tick { now } => put_tick(out, self.who, *now),
            Command::Renew { call } => put_call(out, call, ",\"do\":\"renew\",\"who\":", self.who),
            Command::Clear {
                call,
                clearance,
                eff,
            } => put_clear(out, self.who, b"clear", call, clearance, *eff),
            Command::Accept {
                call,
                clearance,
                eff,
                probed,
            } => put_accept(out, self.who, call, clearance, *eff, *probed),
            Command::Tentative {
                call,
                clearance,
                eff,
            } => put_clear(out, self.who, b"tentative", call, clearance, *eff),
            Command::Withdraw { call, force } => put_withdraw(out, self.who, call, *force),
            Command::Commit { call } => put_call(
                out,
                call,
                ",\"do\":\"commit\",\"who\":",
                self.who,
            ),
        }
    }
}

// Puts the entry of an external flight.
#[tactic(auto, unfolding(json::proofs::OnLiterals::json_on_literals))]
fn put_external(
    out: &mut Vec<u8>,
    who: u32,
    call: &Callsign,
    straight: &Straight,
) -> Result<(), Memory>
    ensures { Puts result out.old out.new (compact_text (object (entry_members who (External call.now straight.now)))) }
{
    put_object(
        out,
        &[
            ("{\"call\":", Datum::Callsign(*call)),
            (
                ",\"do\":\"external\",\"from\":",
                Datum::Count(straight.from),
            ),
            (",\"gr\":", Datum::Whole(&straight.first.gr)),
            (",\"gw\":", Datum::Whole(&straight.first.gw)),
            (",\"r\":", Datum::Whole(&straight.first.r)),
            (",\"rvsm\":", Datum::Truth(straight.rvsm)),
            (",\"to\":", Datum::Count(straight.to)),
            (",\"vx\":", Datum::Whole(&straight.first.vx)),
            (",\"vy\":", Datum::Whole(&straight.first.vy)),
            (",\"vz\":", Datum::Whole(&straight.first.vz)),
            (",\"w\":", Datum::Whole(&straight.first.w)),
            (",\"who\":", Datum::Count(who)),
            (",\"x\":", Datum::Whole(&straight.first.x)),
            (",\"y\":", Datum::Whole(&straight.first.y)),
            (",\"z\":", Datum::Whole(&straight.first.z)),
        ],
    )
}

// Puts the entry of a command that names a flight alone: what stands after the callsign, and who asked.
#[inline(always)]
#[tactic(auto, unfolding(json::proofs::OnLiterals::json_on_literals))]
fn put_call(out: &mut Vec<u8>, call: &Callsign, rest: &str, who: u32) -> Result<(), Memory>
    ensures { Puts result out.old out.new (codes "{\"call\":" ++ (compact_text (string call.now) ++ (rest.now ++ (decimal who ++ codes "}")))) }
{
    put_object(
        out,
        &[
            ("{\"call\":", Datum::Callsign(*call)),
            (rest, Datum::Count(who)),
        ],
    )
}

// Puts the entry of a report.
#[tactic(auto, unfolding(json::proofs::OnLiterals::json_on_literals))]
fn put_report(out: &mut Vec<u8>, who: u32, call: &Callsign, report: &Report) -> Result<(), Memory>
    ensures { Puts result out.old out.new (compact_text (object (entry_members who (reported call.now report.now)))) }
{
    put_object(
        out,
        &[
            ("{\"at\":", Datum::Count(report.at)),
            (",\"call\":", Datum::Callsign(*call)),
            (",\"do\":\"report\",\"who\":", Datum::Count(who)),
            (",\"x\":", Datum::Whole(&report.x)),
            (",\"y\":", Datum::Whole(&report.y)),
            (",\"z\":", Datum::Whole(&report.z)),
        ],
    )
}

// Puts the entry of a tick.
#[tactic(auto, unfolding(json::proofs::OnLiterals::json_on_literals))]
fn put_tick(out: &mut Vec<u8>, who: u32, now: u32) -> Result<(), Memory>
    ensures { Puts result out.old out.new (compact_text (object (entry_members who (Tick now)))) }
{
    put_object(
        out,
        &[
            ("{\"do\":\"tick\",\"now\":", Datum::Count(now)),
            (",\"who\":", Datum::Count(who)),
        ],
    )
}

// Puts the entry of a withdrawal.
#[tactic(auto, unfolding(json::proofs::OnLiterals::json_on_literals))]
fn put_withdraw(out: &mut Vec<u8>, who: u32, call: &Callsign, force: bool) -> Result<(), Memory>
    ensures { Puts result out.old out.new (compact_text (object (entry_members who (Withdraw call.now force)))) }
{
    put_object(
        out,
        &[
            ("{\"call\":", Datum::Callsign(*call)),
            (",\"do\":\"withdraw\",\"force\":", Datum::Truth(force)),
            (",\"who\":", Datum::Count(who)),
        ],
    )
}

// Puts the entry of a clearance, with its command's word.
fn put_clear(
    out: &mut Vec<u8>,
    who: u32,
    word: &[u8],
    call: &Callsign,
    clearance: &Clearance,
    eff: Option<u32>,
) -> Result<(), Memory>
    ensures { Puts result out.old out.new
        (compact_text (object (clearance_members word.now call.now clearance.now (unwrap_or eff 0) (member (codes "who") (whole (pos who)) no_members)))) }
{
    let eff = eff.unwrap_or(0);
    match clearance {
        Clearance::Level(level) => put_object(
            out,
            &[
                ("{\"call\":", Datum::Callsign(*call)),
                (",\"do\":", Datum::Text(word)),
                (",\"eff\":", Datum::Count(eff)),
                (",\"level\":", Datum::Count(*level)),
                (",\"who\":", Datum::Count(who)),
            ],
        ),
        Clearance::Direct(fix) => put_object(
            out,
            &[
                ("{\"call\":", Datum::Callsign(*call)),
                (",\"direct\":", Datum::FixName(*fix)),
                (",\"do\":", Datum::Text(word)),
                (",\"eff\":", Datum::Count(eff)),
                (",\"who\":", Datum::Count(who)),
            ],
        ),
    }
}

// Puts the entry of an accepted clearance, with the version of its probe.
fn put_accept(
    out: &mut Vec<u8>,
    who: u32,
    call: &Callsign,
    clearance: &Clearance,
    eff: u32,
    probed: u64,
) -> Result<(), Memory>
    ensures { Puts result out.old out.new (compact_text (object (entry_members who (Accept call.now clearance.now eff probed)))) }
{
    match clearance {
        Clearance::Level(level) => put_object(
            out,
            &[
                ("{\"call\":", Datum::Callsign(*call)),
                (",\"do\":\"accept\",\"eff\":", Datum::Count(eff)),
                (",\"level\":", Datum::Count(*level)),
                (",\"v\":", Datum::Version(probed)),
                (",\"who\":", Datum::Count(who)),
            ],
        ),
        Clearance::Direct(fix) => put_object(
            out,
            &[
                ("{\"call\":", Datum::Callsign(*call)),
                (",\"direct\":", Datum::FixName(*fix)),
                (",\"do\":\"accept\",\"eff\":", Datum::Count(eff)),
                (",\"v\":", Datum::Version(probed)),
                (",\"who\":", Datum::Count(who)),
            ],
        ),
    }
}
