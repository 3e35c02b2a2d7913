//! A text, made line by line and written in pieces.
ghost use Rattle.std.specs.Prelude.{◌≡◌, ◌≤◌, ℕ, List, IfOk, IfErr, IsErrOf, OnOk, OnErr, string_bytes};
ghost use Rattle.std.specs.Io.KnownBytes.{Appends};
ghost use Rattle.sx_base.specs.Causes.{Rose};
ghost use Rattle.sx_lines.specs.Lines.{IsNextLine, IsNextPiece, AppendsSome, text_of};
ghost use Rattle.sx_lines.specs.declared.writing.Unwritten.TheVariants.{Memory};

use std::alloc::{AllocError, AllocFailed, Global};
use sx_edge::{Sink, put_all};

/// What keeps a text from being written whole.
#[derive(Clone, Copy, Debug, PartialEq, Eq)]
pub enum Unwritten {
    /// The sink failed.
    WriteFault,
    /// There isn't memory enough to make a line.
    Memory,
}

impl From<AllocError> for Unwritten {
    ghost from_gives = { λ _ unwritten. unwritten ≡ Memory };

    fn from(_: AllocError) -> Self {
        Unwritten::Memory
    }
}

/// The lines of a text that are still to come.
pub trait Lines {
    /// These lines, each without its end.
    ghost lines: { Self → List (List ℕ) };

    /// Puts the next line and its end into `line`, in place of what that held; false after the last.
    fn next_line(&mut self, line: &mut String) -> Result<bool, AllocError>
        ensures { IfOk result (IsNextLine (lines self.old) (lines self.new) (string_bytes line.new)) };
}

// How many bytes of lines are gathered before they are written: a write of its own for each line costs about as much as
// making it does.
const GATHERED: usize = 32768;

/// Writes the lines, gathered into pieces of some 32 KiB, in two buffers that are used again.
///
/// `WriteFault` comes only where the sink failed, and `Memory` where a line couldn't be made; then a front of the text
/// was written. The cost is that of making the lines and of writing them.
pub fn write_lines<L: Lines, W: Sink>(
    alloc: Global,
    lines: &mut L,
    out: &mut W,
) -> Result<(), Unwritten>
    ensures whole { OnOk result (Appends (W.taken out.old) (W.taken out.new) (text_of (L.lines lines.old))) }
    ensures front { OnErr result (AppendsSome (W.taken out.old) (W.taken out.new) (text_of (L.lines lines.old))) }
    ensures later { W.faults out.old ≤ W.faults out.new }
    ensures cause { IsErrOf result Unwritten.WriteFault → Rose (W.faults out.old) (W.faults out.new) }
{
    let mut line = String::new(alloc);
    let mut piece = String::new(alloc);
    while next_piece(lines, &mut line, &mut piece)? {
        write_piece(out, piece.as_bytes())?;
    }
    write_piece(out, piece.as_bytes())
}

/// Puts the next lines with their ends into `piece`, in place of what that held, until it is long enough to be written:
/// true where more may come, false where these are all that were left. Each line is made in `line`.
fn next_piece<L: Lines>(
    lines: &mut L,
    line: &mut String,
    piece: &mut String,
) -> Result<bool, AllocError>
    ensures { IfOk result (IsNextPiece (L.lines lines.old) (L.lines lines.new) (string_bytes piece.new)) }
{
    piece.clear();
    while piece.len() < GATHERED {
        if !lines.next_line(line)? {
            return Ok(false);
        }
        piece.push_str(line.as_str())?;
    }
    Ok(true)
}

/// Writes one piece of a text. `WriteFault` comes only where the sink failed; then a front of it was written. Memory is
/// never wanting. The cost is that of writing it.
pub fn write_piece<W: Sink>(out: &mut W, piece: &[u8]) -> Result<(), Unwritten>
    ensures whole { OnOk result (Appends (W.taken out.old) (W.taken out.new) piece.now) }
    ensures front { OnErr result (AppendsSome (W.taken out.old) (W.taken out.new) piece.now) }
    ensures later { W.faults out.old ≤ W.faults out.new }
    ensures may { IfErr result (λ unwritten. unwritten ≡ Unwritten.WriteFault) }
    ensures cause { IsErrOf result Unwritten.WriteFault → Rose (W.faults out.old) (W.faults out.new) }
{
    match put_all(out, piece) {
        Ok(()) => Ok(()),
        Err(_) => Err(Unwritten::WriteFault),
    }
}
