//! A write of all bytes.
ghost use Rattle.std.specs.Prelude.{OnErr, OnOk};
ghost use Rattle.std.specs.Io.KnownBytes.{Appends};
ghost use Rattle.mt_io.specs.Causes.{HasCause};
ghost use Rattle.mt_io.specs.Writing.{AppendsFront};

use crate::sink::Sink;
use crate::source::Failed;

/// A sink failed.
#[derive(Clone, Copy, Debug, PartialEq, Eq)]
pub struct WriteFault;

/// Writes all bytes, in as many calls as the sink wants. Where it fails, a front of them was written.
pub fn put_all<K: Sink>(sink: &mut K, bytes: &[u8]) -> Result<(), WriteFault>
    ensures ok { OnOk result (Appends (K.held sink.old) (K.held sink.new) bytes.now) }
    ensures err { OnErr result (AppendsFront (K.held sink.old) (K.held sink.new) bytes.now) }
    ensures cause { HasCause (K.faults sink.old) (K.faults sink.new) result }
    ensures kept { K.writes_to sink.old sink.new }
{
    let mut rest = bytes;
    while !rest.is_empty() {
        match sink.write_some(rest) {
            Ok(count) => rest = &rest[count..],
            Err(Failed) => return Err(WriteFault),
        }
    }
    Ok(())
}
