//! A sink over a stream of the system.
ghost use Rattle.std.specs.Prelude.{◌≡◌, ◌<◌, ◌≤◌, length, take, IfOk, IfSome, None};
ghost use Rattle.std.specs.Io.{WritesAtMost};
ghost use Rattle.std.specs.Io.KnownBytes.{Appends, WriteAppends};
ghost use Rattle.sx_base.specs.Causes.{HasCause};

use crate::Sink;
use crate::retry::{flush_retrying, write_retrying};
use std::io::Write;
use std::marker::Model;
use sx_base::Failed;

/// A sink over a stream of the system, as the standard output is.
///
/// Each write is flushed. A flush that fails is a failure, and so is a stream that takes nothing of a piece that isn't
/// empty. A call that is interrupted is tried again, at most 1,000 times in a row.
///
/// It doesn't tell the bytes taken: a stream may hold bytes of which it then fails to say that it took them.
#[derive(Drop)]
pub struct StreamSink<W: Write + Drop> {
    stream: W,
    faults: u64,
}

impl<W: Write + Drop> Model for StreamSink<W> {
    ghost use Rattle.sx_edge.specs.Adapters.{StreamState};

    ghost Value = { StreamState };

    ghost view = { λ sink. record { held = W.contents sink.stream; faults = sink.faults } };
}

impl<W: Write + Drop> StreamSink<W> {
    /// A sink over this stream.
    pub fn new(stream: W) -> StreamSink<W>
        ensures { result ≡ record { held = W.contents stream; faults = 0 } }
    {
        StreamSink { stream, faults: 0 }
    }
}

// Writes a front of `piece` and flushes it, and says how many bytes. `None` where the stream failed, or took nothing of a
// piece that isn't empty.
fn write_front<W: Write>(stream: &mut W, piece: &[u8]) -> Option<usize>
    ensures within { IfSome result (λ n. n ≤ length piece.now) }
    ensures progress { 0 < length piece.now → IfSome result (λ n. 0 < n) }
    ensures held { IfSome result (λ n. Appends (W.contents stream.old) (W.contents stream.new) (take n piece.now)) }
{
    let n = write_retrying(stream, piece).ok()?;
    flush_retrying(stream).ok()?;
    if n == 0 && !piece.is_empty() {
        None
    } else {
        Some(n)
    }
}

impl<W: Write + Drop> Sink for StreamSink<W> {
    ghost taken = { λ _. None };

    ghost faults = { λ sink. sink.faults };

    fn write(&mut self, piece: &[u8]) -> Result<usize, Failed>
        ensures held { IfOk result (λ n. Appends self.old.held self.new.held (take n piece.now)) }
        ensures bound { WritesAtMost result piece.now }
        ensures progress { 0 < length piece.now → IfOk result (λ n. 0 < n) }
        ensures bytes { WriteAppends None None result piece.now }
        ensures cause { HasCause self.old.faults self.new.faults result }
    {
        match write_front(&mut self.stream, piece) {
            Some(n) => Ok(n),
            None => {
                self.faults = self.faults.saturating_add(1);
                Err(Failed)
            }
        }
    }
}
