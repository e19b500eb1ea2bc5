//! The bytes of a line in or out.

use anyhow::{Context, Result};

/// Puts the bytes of a text with escapes after those before.
pub fn push_escaped(bytes: &mut Vec<u8>, text: &str) -> Result<()> {
    let mut pieces = text.split("\\x");
    bytes.extend_from_slice(pieces.next().unwrap_or("").as_bytes())?;
    for piece in pieces {
        let (digits, rest) = piece.split_at_checked(2).context("\\x wants two digits")?;
        let byte = u8::from_str_radix(digits, 16)?;
        let (count, rest) = count_of(rest)?;
        for _ in 0..count {
            bytes.push(byte)?;
        }
        bytes.extend_from_slice(rest.as_bytes())?;
    }
    Ok(())
}

/// How often a byte stands, and the text after that number.
fn count_of(text: &str) -> Result<(u32, &str)> {
    let Some(behind) = text.strip_prefix('{') else {
        return Ok((1, text));
    };
    if !behind.starts_with(|letter: char| letter.is_ascii_digit()) {
        return Ok((1, text));
    }
    let (digits, rest) = behind.split_once('}').context("{ wants a }")?;
    Ok((digits.parse()?, rest))
}
