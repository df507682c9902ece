//! Handing bytes to a sink until all are taken.
ghost use Rattle.std.specs.Prelude.{OnOk, OnErr};
ghost use Rattle.std.specs.Io.KnownBytes.{Appends};
ghost use Rattle.wcet_io.specs.Causes.{HasCause};
ghost use Rattle.wcet_io.specs.Fronts.{AppendsFront};

use crate::sink::Sink;
use crate::source::Failed;

/// Hands the whole rest of the bytes to each `put`, until nothing is left. It takes no memory.
///
/// `Failed` comes only where the sink failed, and then a front of the bytes was taken.
pub fn deliver<O: Sink>(sink: &mut O, bytes: &[u8]) -> Result<(), Failed>
    ensures ok { OnOk result (Appends (O.held sink.old) (O.held sink.new) bytes.now) }
    ensures err { OnErr result (AppendsFront (O.held sink.old) (O.held sink.new) bytes.now) }
    ensures cause { HasCause (O.faults sink.old) (O.faults sink.new) result }
{
    let mut rest = bytes;
    while !rest.is_empty() {
        let count = sink.put(rest)?;
        let (_, left) = rest.split_at(count);
        rest = left;
    }
    Ok(())
}
