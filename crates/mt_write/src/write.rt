//! Texts put one after another into a room.
ghost use Rattle.std.specs.Prelude.{◌++◌, ◌∷◌, []};
ghost use Rattle.mt_write.specs.Private.Puts.{Puts};
ghost use Rattle.mt_write.specs.Private.Joined.{texts_joined};

use mt_memory::Memory;

/// Puts bytes after what stands in the room.
pub(crate) fn put(out: &mut Vec<u8>, bytes: &[u8]) -> Result<(), Memory>
    ensures { Puts result out.old out.new bytes.now }
{
    out.extend_from_slice(bytes)?;
    Ok(())
}

/// Puts a byte after what stands in the room.
#[inline(always)]
pub(crate) fn put_byte(out: &mut Vec<u8>, byte: u8) -> Result<(), Memory>
    ensures { Puts result out.old out.new (byte ∷ []) }
{
    out.push(byte)?;
    Ok(())
}

/// Puts a text that needs no escape between quotes.
#[inline(always)]
pub(crate) fn put_quoted(out: &mut Vec<u8>, text: &[u8]) -> Result<(), Memory>
    ensures { Puts result out.old out.new (34 ∷ (text.now ++ 34 ∷ [])) }
{
    put_byte(out, b'"')?;
    put(out, text)?;
    put_byte(out, b'"')
}

/// Puts pieces after what stands in the room, in order.
pub(crate) fn put_all(out: &mut Vec<u8>, pieces: &[&[u8]]) -> Result<(), Memory>
    ensures { Puts result out.old out.new (texts_joined pieces.now) }
{
    for piece in pieces {
        put(out, piece)?;
    }
    Ok(())
}
