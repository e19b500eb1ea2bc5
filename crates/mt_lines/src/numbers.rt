//! Numbers in a line.
ghost use Rattle.std.specs.Prelude.{◌≡◌, ◌≤◌, ◌+◌, ◌++◌, OnOk, Ok, decimal, length, vec_capacity, vec_len};

use itoa::Buffer;
use mt_memory::Memory;

/// Puts a number after what stands in a line, in at most 20 decimal digits, with its key before it. `Memory` is the one error; the line may
/// have grown by a front of what was to be put then. Where the line has room for the key and 20 bytes it succeeds.
pub fn put_number(line: &mut Vec<u8>, key: &[u8], number: u64) -> Result<(), Memory>
    ensures put { OnOk result (line.new.items ≡ line.old.items ++ (key.now ++ decimal number)) }
    ensures room { vec_len line.old + length key.now + 20 ≤ vec_capacity line.old → result ≡ Ok tt }
    ensures within { OnOk result (vec_len line.new ≤ vec_len line.old + length key.now + 20) }
    ensures kept { vec_capacity line.old ≤ vec_capacity line.new }
{
    let mut digits = Buffer::new();
    line.extend_from_slice(key)?;
    line.extend_from_slice(digits.format(number).as_bytes())?;
    Ok(())
}
