//! Writing a whole piece.
ghost use Rattle.std.specs.Prelude.{OnOk, OnErr};
ghost use Rattle.std.specs.Io.KnownBytes.{Appends};
ghost use Rattle.sx_base.specs.Causes.{HasCause};
ghost use Rattle.sx_edge.specs.Sink.{AppendsFront};

use crate::Sink;
use sx_base::Failed;

/// Writes the whole of `piece`.
///
/// Answers `Failed` only where a write failed; then a front of `piece` was written, and not the whole.
pub fn put_all<W: Sink>(sink: &mut W, piece: &[u8]) -> Result<(), Failed>
    ensures whole { OnOk result (Appends (W.taken sink.old) (W.taken sink.new) piece.now) }
    ensures front { OnErr result (AppendsFront (W.taken sink.old) (W.taken sink.new) piece.now) }
    ensures cause { HasCause (W.faults sink.old) (W.faults sink.new) result }
{
    let mut done = 0;
    while done < piece.len() {
        done += sink.write(&piece[done..])?;
    }
    Ok(())
}
