//! Truth values as values of JSON.
ghost use Rattle.serde_json.specs.Data.{boolean};

use crate::write::put;
use crate::written::Written;
use mt_memory::Memory;

impl Written for bool {
    ghost value = { boolean };

    #[inline(always)]
    fn put(&self, out: &mut Vec<u8>) -> Result<(), Memory> {
        if *self {
            return put(out, b"true");
        }
        put(out, b"false")
    }
}
