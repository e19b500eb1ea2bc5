//! What is advised.
ghost use Rattle.mt_write.specs.Reply.{advised_value};

use crate::object::{Datum, put_object};
use crate::reply::AdviceItem;
use crate::written::Written;
use mt_base::Clearance;
use mt_memory::Memory;

impl Written for AdviceItem {
    ghost value = { advised_value };

    fn put(&self, out: &mut Vec<u8>) -> Result<(), Memory> {
        let probe = Datum::Version(self.probe);
        match &self.clearance {
            Clearance::Level(level) => {
                let level = Datum::Count(*level);
                put_object(out, &[("{\"level\":", level), (",\"probe\":", probe)])
            }
            Clearance::Direct(fix) => {
                let fix = Datum::FixName(*fix);
                put_object(out, &[("{\"direct\":", fix), (",\"probe\":", probe)])
            }
        }
    }
}
