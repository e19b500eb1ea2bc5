//! Whole numbers as values of JSON.
ghost use Rattle.std.specs.Prelude.{pos};
ghost use Rattle.mt_write.specs.Entry.{whole};

use crate::write::put;
use crate::written::Written;
use itoa::Buffer;
use mt_memory::Memory;

impl Written for i64 {
    ghost value = { whole };

    #[inline(always)]
    fn put(&self, out: &mut Vec<u8>) -> Result<(), Memory> {
        let mut digits = Buffer::new();
        put(out, digits.format(*self).as_bytes())
    }
}

impl Written for u32 {
    ghost value = { λ n. whole (pos n) };

    #[inline(always)]
    fn put(&self, out: &mut Vec<u8>) -> Result<(), Memory> {
        let mut digits = Buffer::new();
        put(out, digits.format(*self).as_bytes())
    }
}

impl Written for u64 {
    ghost value = { λ n. whole (pos n) };

    #[inline(always)]
    fn put(&self, out: &mut Vec<u8>) -> Result<(), Memory> {
        let mut digits = Buffer::new();
        put(out, digits.format(*self).as_bytes())
    }
}
