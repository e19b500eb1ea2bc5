//! Values of JSON put into a room, and lists of them.
ghost use Rattle.std.specs.Prelude.{false, ◌++◌};
ghost use Rattle.serde_json.specs.Data.{Data};
ghost use Rattle.serde_json.specs.Written.{comma_if, compact_text, items_text};
ghost use Rattle.mt_write.specs.Private.Puts.{Puts};
ghost use Rattle.mt_write.specs.Entry.{values};

use crate::write::put_byte;
use mt_memory::Memory;

/// What is written as a value of JSON.
pub(crate) trait Written {
    ghost value: { Self → Data };

    /// Puts its compact text after what stands in the room.
    fn put(&self, out: &mut Vec<u8>) -> Result<(), Memory>
        ensures { Puts result out.old out.new (compact_text (value self.now)) };
}

/// Puts a comma, where something stands before.
fn put_comma_if(out: &mut Vec<u8>, later: bool) -> Result<(), Memory>
    ensures { Puts result out.old out.new (comma_if later) }
{
    if later {
        return put_byte(out, b',');
    }
    Ok(())
}

/// Puts one item of a list.
fn put_item<T: Written>(out: &mut Vec<u8>, later: bool, item: &T) -> Result<(), Memory>
    ensures { Puts result out.old out.new (comma_if later ++ compact_text (T.value item.now)) }
{
    put_comma_if(out, later)?;
    item.put(out)
}

/// Puts the items of a list, with the closing bracket.
pub(crate) fn put_items<T: Written>(out: &mut Vec<u8>, items: &[T]) -> Result<(), Memory>
    ensures { Puts result out.old out.new (items_text false (values T.value items.now)) }
{
    let mut later = false;
    for item in items {
        put_item(out, later, item)?;
        later = true;
    }
    put_byte(out, b']')
}
