// Writes a whole text.
ghost use Rattle.std.specs.Prelude.{OnOk, OnErr};
ghost use Rattle.std.specs.Io.KnownBytes.{Appends};
ghost use Rattle.rk_outside.specs.Faults.{HasCause};
ghost use Rattle.rk_outside.specs.Parts.{AppendsPart};

use crate::fault::Failed;
use crate::sink::Sink;

/// Writes all of `bytes`: what a put leaves is put again. `Failed` comes only if the sink's count of
/// faults rose, which it does at a put that takes nothing too, and then some first part of them was
/// written.
pub fn put_all<K: Sink>(sink: &mut K, bytes: &[u8]) -> Result<(), Failed>
    ensures ok { OnOk result (Appends (K.written sink.old) (K.written sink.new) bytes.now) }
    ensures err { OnErr result (AppendsPart (K.written sink.old) (K.written sink.new) bytes.now) }
    ensures cause { HasCause (K.faults sink.old) (K.faults sink.new) result }
{
    let mut rest = bytes;
    'puts: while !rest.is_empty() {
        let taken = sink.put(rest)?;
        if taken == 0 {
            return Err(Failed);
        }
        let (_, left) = rest.split_at(taken);
        rest = left;
    }
    Ok(())
}
