//! Text between quotes.
ghost use Rattle.std.specs.Prelude.{◌≡◌, ◌<◌};
ghost use Rattle.std.specs.Char.{digit_char};
ghost use Rattle.json.specs.Print.{escape_byte, escape};
ghost use Rattle.mt_write.specs.Private.Puts.{Puts};

use crate::write::put;
use mt_memory::Memory;

// The digit of a number below 16.
fn digit(n: u8) -> u8
    requires { n < 16 }
    ensures { result ≡ digit_char n }
{
    if n < 10 { b'0' + n } else { b'a' + (n - 10) }
}

// Puts what stands between quotes for a byte.
#[tactic(auto, unfolding(json::specs::Print::escape_byte))]
fn put_escaped_byte(out: &mut Vec<u8>, byte: u8) -> Result<(), Memory>
    ensures { Puts result out.old out.new (escape_byte byte) }
{
    match byte {
        b'"' => put(out, b"\\\""),
        b'\\' => put(out, b"\\\\"),
        8 => put(out, b"\\b"),
        9 => put(out, b"\\t"),
        10 => put(out, b"\\n"),
        12 => put(out, b"\\f"),
        13 => put(out, b"\\r"),
        0..=31 => put(
            out,
            &[b'\\', b'u', b'0', b'0', digit(byte / 16), digit(byte % 16)],
        ),
        _ => put(out, &[byte]),
    }
}

/// Puts what stands between quotes for a text.
pub(crate) fn put_escaped(out: &mut Vec<u8>, text: &[u8]) -> Result<(), Memory>
    ensures { Puts result out.old out.new (escape text.now) }
{
    for byte in text {
        put_escaped_byte(out, *byte)?;
    }
    Ok(())
}
