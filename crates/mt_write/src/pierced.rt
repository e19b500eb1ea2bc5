ghost use Rattle.mt_write.specs.Reply.{pierced_value};

use crate::conflict::letter;
use crate::short_text::ShortText;
use crate::write::put;
use crate::written::Written;
use mt_base::Pierced;
use mt_memory::Memory;

impl Written for Pierced {
    ghost value = { pierced_value };

    fn put(&self, out: &mut Vec<u8>) -> Result<(), Memory> {
        let kind = [letter(self.kind)];
        let mut text = ShortText::new();
        text.prepend(b"}");
        text.prepend_number(self.last);
        text.prepend(b"\",\"last\":");
        text.prepend(&kind);
        text.prepend(b",\"kind\":\"");
        text.prepend_number(self.first);
        text.prepend(b"\",\"first\":");
        text.prepend_callsign(&self.call);
        text.prepend(b"\",\"call\":\"");
        text.prepend_fix(&self.area);
        text.prepend(b"{\"area\":\"");
        put(out, text.bytes())
    }
}
