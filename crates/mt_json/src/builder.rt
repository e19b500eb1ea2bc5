ghost use Rattle.std.specs.Prelude.{◌≡◌, OnOk, OnErr, IfOk, IsOkAnd};
ghost use Rattle.serde_json.specs.Data.{no_members, number, string, put};
ghost use Rattle.serde_json.specs.Find.{of_integer};
ghost use Rattle.serde_json.specs.View.{view};
ghost use Rattle.mt_json.specs.Keys.{AreInByteOrder};
ghost use Rattle.mt_json.specs.Line.{IsPlain, ArePlain, IsPlainLine, IsLine};
ghost use Rattle.mt_json.specs.Shown.{pairs};

use mt_memory::Memory;
use serde_json::{Map, Value};
use std::alloc::Global;

/// Makes a line of JSON: an object of the pairs that are put in.
///
/// A key that is put in again keeps the last value. A call that is refused leaves the pairs as they were.
#[derive(Drop)]
pub struct Builder {
    alloc: Global,
    map: Map<String, Value>,
}

impl Builder {
    /// A builder with no pair yet.
    pub fn make(alloc: Global) -> Result<Builder, Memory>
        ensures { IsOkAnd result (λ b. pairs b ≡ no_members) }
    {
        let map = Map::new(alloc);
        Ok(Builder { alloc, map })
    }

    /// Puts in a key with a whole number.
    pub fn number(&mut self, key: &str, n: i64) -> Result<(), Memory>
        ensures ok { OnOk result
            (pairs self.new ≡ put key.now (number (of_integer n)) (pairs self.old)) }
        ensures err { OnErr result (pairs self.new ≡ pairs self.old) }
        ensures plain { ArePlain (pairs self.old) → ArePlain (pairs self.new) }
    {
        self.value(key, Value::from(n))
    }

    /// Puts in a key with a text.
    pub fn text(&mut self, key: &str, text: &str) -> Result<(), Memory>
        ensures ok { OnOk result (pairs self.new ≡ put key.now (string text.now) (pairs self.old)) }
        ensures err { OnErr result (pairs self.new ≡ pairs self.old) }
        ensures plain { ArePlain (pairs self.old) → ArePlain (pairs self.new) }
    {
        let text = Value::try_from_str(self.alloc, text)?;
        self.value(key, text)
    }

    /// Puts in a key with any value.
    pub fn value(&mut self, key: &str, value: Value) -> Result<(), Memory>
        ensures ok { OnOk result (pairs self.new ≡ put key.now (view value) (pairs self.old)) }
        ensures err { OnErr result (pairs self.new ≡ pairs self.old) }
        ensures plain { IsPlain (view value) → ArePlain (pairs self.old) → ArePlain (pairs self.new) }
    {
        serde_json::put(&mut self.map, self.alloc, key, value)?;
        Ok(())
    }

    // The keys are in order, which the map's length tells. It does nothing.
    fn keeps(&self)
        ensures { AreInByteOrder (pairs self.now) }
    {
        self.map.len();
    }

    /// The pairs as one compact line, keys in byte order, with 0x0A at its end.
    ///
    /// Where each value is plain (no float, and less than 127 levels deep) the bytes are those of `line_of`, no other 0x0A stands among them,
    /// and what stands before it is read back as these pairs. A float is written too, in digits that read back and that no definition gives.
    pub fn line(self) -> Result<Vec<u8>, Memory>
        ensures plain { ArePlain (pairs self) → IfOk result (λ b. IsPlainLine (pairs self) b.items) }
        ensures any { IfOk result (λ b. IsLine (pairs self) b.items) }
        ensures ordered { AreInByteOrder (pairs self) }
    {
        self.keeps();
        let value = Value::Object(self.map);
        let mut bytes = value.to_vec(self.alloc)?;
        bytes.push(b'\n')?;
        Ok(bytes)
    }
}
