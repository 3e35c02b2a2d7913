//! Calls of the system that may be interrupted.
//!
//! Each call here is tried again where it was interrupted, at most 1,000 times in a row. The interruption after that is
//! handed on as any other error is.
ghost use Rattle.std.specs.Io.{ReadsAtMost, WritesAtMost};
ghost use Rattle.std.specs.Io.KnownBytes.{Keeps, ReadConsumes, WriteAppends};

use std::io::{ErrorKind, Read, Write};
use std::rt::Files;
use std::{fs, io};

// How many times in a row an interrupted call is tried again.
const RETRIES: u32 = 1_000;

/// Opens a file to be read.
pub(crate) fn open_retrying<R: Files>(files: &R, name: &str) -> io::Result<R::File> {
    for _ in 0..RETRIES {
        match fs::open(files, name) {
            Err(error) if error.kind() == ErrorKind::Interrupted => {}
            outcome => return outcome,
        }
    }
    fs::open(files, name)
}

/// Reads once.
#[tactic(auto, using(crate::proofs::Retries::kept_twice, crate::proofs::Retries::kept_then_read))]
pub(crate) fn read_retrying<F: Read>(file: &mut F, buf: &mut [u8]) -> io::Result<usize>
    ensures bound { ReadsAtMost result buf.new }
    ensures bytes { ReadConsumes (F.remaining file.old) (F.remaining file.new) result buf.new }
{
    for _ in 0..RETRIES {
        match file.read(buf) {
            Err(error) if error.kind() == ErrorKind::Interrupted => {}
            outcome => return outcome,
        }
    }
    file.read(buf)
}

/// Writes once.
#[tactic(auto, using(crate::proofs::Retries::kept_twice, crate::proofs::Retries::kept_then_written))]
pub(crate) fn write_retrying<W: Write>(stream: &mut W, piece: &[u8]) -> io::Result<usize>
    ensures bound { WritesAtMost result piece.now }
    ensures bytes { WriteAppends (W.contents stream.old) (W.contents stream.new) result piece.now }
{
    for _ in 0..RETRIES {
        match stream.write(piece) {
            Err(error) if error.kind() == ErrorKind::Interrupted => {}
            outcome => return outcome,
        }
    }
    stream.write(piece)
}

/// Flushes.
#[tactic(auto, using(crate::proofs::Retries::kept_twice))]
pub(crate) fn flush_retrying<W: Write>(stream: &mut W) -> io::Result<()>
    ensures { Keeps (W.contents stream.old) (W.contents stream.new) }
{
    for _ in 0..RETRIES {
        match stream.flush() {
            Err(error) if error.kind() == ErrorKind::Interrupted => {}
            outcome => return outcome,
        }
    }
    stream.flush()
}
