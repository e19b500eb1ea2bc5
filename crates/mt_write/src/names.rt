//! Names as values of JSON.
ghost use Rattle.serde_json.specs.Data.{string};

use crate::write::put_quoted;
use crate::written::Written;
use mt_base::{Callsign, FixName, TypeName};
use mt_memory::Memory;

impl Written for FixName {
    ghost value = { string };

    #[inline(always)]
    fn put(&self, out: &mut Vec<u8>) -> Result<(), Memory> {
        put_quoted(out, self.bytes())
    }
}

impl Written for Callsign {
    ghost value = { string };

    #[inline(always)]
    fn put(&self, out: &mut Vec<u8>) -> Result<(), Memory> {
        put_quoted(out, self.bytes())
    }
}

impl Written for TypeName {
    ghost value = { string };

    #[inline(always)]
    fn put(&self, out: &mut Vec<u8>) -> Result<(), Memory> {
        put_quoted(out, self.bytes())
    }
}
