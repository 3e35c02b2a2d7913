//! The texts of refusals.
ghost use Rattle.std.specs.Prelude.{◌≡◌, ◌⊎◌, ◌≤◌, IfOk, IfSome, IfNone, IsErrOf, OnOk, OnErr, string_bytes, Err};
ghost use Rattle.std.specs.Io.KnownBytes.{Appends};
ghost use Rattle.sx_base.specs.Causes.{Rose};
ghost use Rattle.sx_base.specs.declared.evidence.Part.{Part};
ghost use Rattle.sx_lines.specs.Lines.{AppendsSome};
ghost use Rattle.sx_app.specs.Answers.{Answers, answered, Prints};
ghost use Rattle.sx_app.specs.Owed.{Ends, HasNumber};
ghost use Rattle.sx_app.specs.Refusals.{refusal_text};

use crate::refused::Refused;
use std::alloc::{AllocError, Global};
use sx_base::{Moment, Part};
use sx_edge::Sink;
use sx_header::HeaderFault;
use sx_lines::{Unwritten, write_piece};

/// How the program is used.
const USAGE: &str =
    "usage: <db> timeline | show table=T [at=M] | map [at=M] | page no=N [at=M] | carve [at=M|all] [spill=yes|no] | explain part=P byte=N [at=M] | report | generations | history table=T rowid=N\nusage: drill seed=N leaves=N commits=N\n";

/// Writes the text of a refusal, and answers how the examination ends: with this refusal, unless its text couldn't be
/// written. `part` is the part of the evidence that the words name.
///
/// Memory is taken only where the text has a number. A read fault and want of memory print nothing.
pub fn refuse<W: Sink>(alloc: Global, part: Part, refused: Refused, out: &mut W) -> Refused
    ensures answers { Answers (answered part (Err refused)) (W.taken out.old) (W.taken out.new) (Err result) }
    ensures prints { Prints part (W.taken out.old) (W.taken out.new) result }
    ensures ends { Ends refused result }
    ensures later { W.faults out.old ≤ W.faults out.new }
    ensures cause { result ≡ Refused.WriteFault → (refused ≡ Refused.WriteFault) ⊎ Rose (W.faults out.old) (W.faults out.new) }
{
    match write_refusal(alloc, part, refused, out) {
        Ok(()) => refused,
        Err(unwritten) => Refused::from(unwritten),
    }
}

// Writes the text of a refusal.
fn write_refusal<W: Sink>(
    alloc: Global,
    part: Part,
    refused: Refused,
    out: &mut W,
) -> Result<(), Unwritten>
    ensures whole { OnOk result (Appends (W.taken out.old) (W.taken out.new) (refusal_text part refused)) }
    ensures front { OnErr result (AppendsSome (W.taken out.old) (W.taken out.new) (refusal_text part refused)) }
    ensures later { W.faults out.old ≤ W.faults out.new }
    ensures memory { IsErrOf result Unwritten.Memory → HasNumber refused }
    ensures cause { IsErrOf result Unwritten.WriteFault → Rose (W.faults out.old) (W.faults out.new) }
{
    match plain_text(refused) {
        Some(text) => write_piece(out, text.as_bytes()),
        None => write_piece(out, numbered_text(alloc, part, refused)?.as_bytes()),
    }
}

// The text of a refusal that has no number.
fn plain_text(refused: Refused) -> Option<&'static str>
    ensures text { (part : Part) → IfSome result (λ text. text.now ≡ refusal_text part refused) }
    ensures none { IfNone result (HasNumber refused) }
{
    match refused {
        Refused::Usage => Some(USAGE),
        Refused::NoDatabase => Some("refused: no database\n"),
        Refused::BadHeader(fault) => Some(header_text(fault)),
        Refused::TooLarge(part) => Some(size_text(part)),
        Refused::NoTable => Some("refused: no such table\n"),
        Refused::NoTree => Some("refused: table has no tree\n"),
        Refused::ReadFault | Refused::WriteFault | Refused::Memory => Some(""),
        Refused::NoMoment(_) | Refused::Unreadable(_) | Refused::NoByte(_) => None,
    }
}

// The text of a header that isn't accepted.
fn header_text(fault: HeaderFault) -> &'static str
    ensures { (part : Part) → result.now ≡ refusal_text part (Refused.BadHeader fault) }
{
    match fault {
        HeaderFault::Short => "refused: header short\n",
        HeaderFault::Magic => "refused: header magic\n",
        HeaderFault::PageSize => "refused: header pagesize\n",
        HeaderFault::Usable => "refused: header usable\n",
        HeaderFault::Encoding => "refused: header encoding\n",
    }
}

// The text of a file that is too large.
fn size_text(large: Part) -> &'static str
    ensures { (part : Part) → result.now ≡ refusal_text part (Refused.TooLarge large) }
{
    match large {
        Part::Database => "refused: database is larger than 1073741824 bytes\n",
        Part::Wal => "refused: wal is larger than 1073741824 bytes\n",
        Part::Journal => "refused: journal is larger than 1073741824 bytes\n",
    }
}

// The text of a refusal that has a number.
fn numbered_text(alloc: Global, part: Part, refused: Refused) -> Result<String, AllocError>
    requires { HasNumber refused }
    ensures { IfOk result (λ text. string_bytes text ≡ refusal_text part refused) }
{
    match refused {
        Refused::NoMoment(commits) => {
            format!(in alloc; "refused: no such moment; the last is {commits}\n")
        }
        Refused::Unreadable(moment) => unreadable_text(alloc, moment),
        Refused::NoByte(length) => length_text(alloc, part, length),
        _ => unreachable!(),
    }
}

// The text of a moment whose page 1 is no header.
fn unreadable_text(alloc: Global, moment: Moment) -> Result<String, AllocError>
    ensures { (part : Part) → IfOk result (λ text. string_bytes text ≡ refusal_text part (Refused.Unreadable moment)) }
{
    match moment {
        Moment::Journal => String::from_str(alloc, "refused: page 1 is unreadable at journal\n"),
        Moment::File => String::from_str(alloc, "refused: page 1 is unreadable at 0\n"),
        Moment::Commit(k) => format!(in alloc; "refused: page 1 is unreadable at {k}\n"),
    }
}

// The text of a byte past the end of a part.
fn length_text(alloc: Global, part: Part, length: u64) -> Result<String, AllocError>
    ensures { IfOk result (λ text. string_bytes text ≡ refusal_text part (Refused.NoByte length)) }
{
    match part {
        Part::Database => format!(in alloc; "refused: database has {length} bytes\n"),
        Part::Wal => format!(in alloc; "refused: wal has {length} bytes\n"),
        Part::Journal => format!(in alloc; "refused: journal has {length} bytes\n"),
    }
}
