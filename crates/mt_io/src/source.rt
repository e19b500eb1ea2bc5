//! Where bytes come from.
ghost use Rattle.std.specs.Prelude.{◌≡◌, ◌<◌, ℕ, List, length};
ghost use Rattle.std.specs.declared.option.Option.{Option};
ghost use Rattle.std.specs.Io.{ReadsAtMost};
ghost use Rattle.std.specs.Io.KnownBytes.{ReadConsumes};
ghost use Rattle.mt_io.specs.Causes.{HasCause};

/// A call on the outside failed. Its object has counted the fault.
#[derive(Clone, Copy, Debug, PartialEq, Eq)]
pub struct Failed;

/// A source of bytes, which counts its faults.
pub trait Source {
    /// The bytes that it has left, where it tells them.
    ghost left: { Self → Option (List ℕ) };

    /// How often it has failed. The count never falls, and stays at `u64::MAX`.
    ghost faults: { Self → ℕ };

    /// What reads may change of the source, from before them to after them.
    ghost reads_to: { Self → Self → Type 0 };

    /// The count of faults.
    fn read_faults(&self) -> u64
        ensures { result ≡ faults self.now };

    /// Reads some bytes to the front of the buffer, which isn't empty, and says how many.
    /// 0 is the end of the source. `Failed` comes only where the count rose in this call.
    fn read_some(&mut self, buf: &mut [u8]) -> Result<usize, Failed>
        requires { 0 < length buf.old }
        ensures bound { ReadsAtMost result buf.new }
        ensures bytes { ReadConsumes (left self.old) (left self.new) result buf.new }
        ensures cause { HasCause (faults self.old) (faults self.new) result }
        ensures kept { reads_to self.old self.new };

    /// To read nothing changes what reads may change.
    ghost reads_to_itself: { (s : Self) → reads_to s s };

    /// Reads after reads are reads.
    ghost reads_on: { (a b c : Self) → reads_to a b → reads_to b c → reads_to a c };
}
