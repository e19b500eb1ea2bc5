//! The entry of a plan. What stands before its route and after it is made as one piece each, so that the room is looked at once for several members.
ghost use Rattle.std.specs.Prelude.{◌++◌};
ghost use Rattle.serde_json.specs.Data.{array, string};
ghost use Rattle.serde_json.specs.Written.{compact_text};
ghost use Rattle.mt_write.specs.Entry.{values};
ghost use Rattle.mt_write.specs.Private.Plan.{plan_back, plan_front};
ghost use Rattle.mt_write.specs.Private.Puts.{Puts};

use crate::object::put_array;
use crate::short_text::ShortText;
use crate::write::put;
use mt_base::{Callsign, FixName, TypeName};
use mt_memory::Memory;

/// Puts what stands before the route of a plan.
pub(crate) fn put_plan_front(
    out: &mut Vec<u8>,
    call: &Callsign,
    at: u32,
    from: u32,
    level: u32,
) -> Result<(), Memory>
    ensures { Puts result out.old out.new (plan_front at call.now from level) }
{
    let mut text = ShortText::new();
    text.prepend(b",\"route\":");
    text.prepend_number(level);
    text.prepend(b",\"level\":");
    text.prepend_number(from);
    text.prepend(b"\",\"do\":\"plan\",\"from\":");
    text.prepend_callsign(call);
    text.prepend(b",\"call\":\"");
    text.prepend_number(at);
    text.prepend(b"{\"at\":");
    put(out, text.bytes())
}

/// Puts what stands after the route of a plan.
pub(crate) fn put_plan_back(
    out: &mut Vec<u8>,
    rvsm: bool,
    kind: &TypeName,
    who: u32,
) -> Result<(), Memory>
    ensures { Puts result out.old out.new (plan_back rvsm kind.now who) }
{
    let mut text = ShortText::new();
    text.prepend(b"}");
    text.prepend_number(who);
    text.prepend(b"\",\"who\":");
    text.prepend_type(kind);
    text.prepend(b",\"type\":\"");
    text.prepend_truth(rvsm);
    text.prepend(b",\"rvsm\":");
    put(out, text.bytes())
}

/// Puts the route of a plan and what stands after it.
pub(crate) fn put_route_on(
    out: &mut Vec<u8>,
    route: &[FixName],
    rvsm: bool,
    kind: &TypeName,
    who: u32,
) -> Result<(), Memory>
    ensures { Puts result out.old out.new (compact_text (array (values string route.now)) ++ plan_back rvsm kind.now who) }
{
    put_array(out, route)?;
    put_plan_back(out, rvsm, kind, who)
}
