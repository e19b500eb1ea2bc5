ghost use Rattle.std.specs.Prelude.{◌≡◌};
ghost use Rattle.mt_write.specs.Reply.{kind_letter, conflict_value};

use crate::short_text::ShortText;
use crate::write::put;
use crate::written::Written;
use mt_base::{Conflict, Kind};
use mt_memory::Memory;

// The letter of a kind.
pub(crate) fn letter(kind: Kind) -> u8
    ensures { result ≡ kind_letter kind }
{
    match kind {
        Kind::Actual => b'a',
        Kind::Tentative => b't',
    }
}

impl Written for Conflict {
    ghost value = { conflict_value };

    fn put(&self, out: &mut Vec<u8>) -> Result<(), Memory> {
        let mut text = ShortText::new();
        text.prepend(b"\"]}");
        text.prepend_callsign(&self.b);
        text.prepend(b"\",\"");
        text.prepend_callsign(&self.a);
        text.prepend(b",\"pair\":[\"");
        text.prepend_number(self.last);
        text.prepend(b"\",\"last\":");
        text.prepend(&[letter(self.ka), letter(self.kb)]);
        text.prepend(b",\"kinds\":\"");
        text.prepend_number(self.first);
        text.prepend(b"{\"first\":");
        put(out, text.bytes())
    }
}
