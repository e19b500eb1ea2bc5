ghost use Rattle.mt_write.specs.Reply.{hit_value};

use crate::short_text::ShortText;
use crate::write::put;
use crate::written::Written;
use mt_base::Hit;
use mt_memory::Memory;

impl Written for Hit {
    ghost value = { hit_value };

    fn put(&self, out: &mut Vec<u8>) -> Result<(), Memory> {
        let mut text = ShortText::new();
        text.prepend(b"\"}");
        text.prepend_callsign(&self.with);
        text.prepend(b",\"with\":\"");
        text.prepend_number(self.last);
        text.prepend(b",\"last\":");
        text.prepend_number(self.first);
        text.prepend(b"{\"first\":");
        put(out, text.bytes())
    }
}
